// A folder in memory without failures.
use super::steps::{Call, Seat, Step, first_unmet};

const FILES_BY_NAME: &[Step] = &[
    Step::Lacks("a"),
    Step::Puts("a", b"abcdef"),
    Step::Puts("b", b""),
    Step::Holds("a", b"abcdef"),
    Step::Holds("b", b""),
    Step::Puts("a", b"xy"),
    Step::Holds("a", b"xy"),
    Step::Holds("b", b""),
    Step::Lacks("A"),
];

#[test]
fn files_by_name(rt: HostRuntime) {
    let unmet = first_unmet(rt.alloc(), &[], FILES_BY_NAME);
    assert_eq!(rt; unmet, None);
}

const A_READER_KEEPS_ITS_BYTES_AND_TELLS_ITS_READS: &[Step] = &[
    Step::Takes(Seat::First, "a"),
    Step::FindsNone("b"),
    Step::Reader(Seat::First, Call::HasLength(6)),
    Step::Puts("a", b"later"),
    Step::Reader(Seat::First, Call::Reads(2, b"cdef")),
    Step::Reader(Seat::First, Call::Reads(0, b"abcd")),
    Step::Reader(Seat::First, Call::WasAsked(&[(2, 4), (0, 4)])),
    Step::Tells(&[]),
    Step::GivesBack(Seat::First),
    Step::Tells(&[(2, 4), (0, 4)]),
    Step::Holds("a", b"later"),
];

#[test]
fn a_reader_keeps_its_bytes_and_tells_its_reads(rt: HostRuntime) {
    let unmet = first_unmet(
        rt.alloc(),
        &[("a", b"abcdef")],
        A_READER_KEEPS_ITS_BYTES_AND_TELLS_ITS_READS,
    );
    assert_eq!(rt; unmet, None);
}

const A_SECOND_READER_IS_ABSORBED: &[Step] = &[
    Step::Takes(Seat::First, "a"),
    Step::Reader(Seat::First, Call::Reads(0, b"abcd")),
    Step::Reader(Seat::First, Call::Seconds(Seat::Second)),
    Step::Reader(Seat::Second, Call::WasAsked(&[])),
    Step::Reader(Seat::Second, Call::Reads(2, b"cdef")),
    Step::Reader(Seat::First, Call::WasAsked(&[(0, 4)])),
    Step::Reader(Seat::First, Call::Absorbs(Seat::Second)),
    Step::Reader(Seat::First, Call::WasAsked(&[(0, 4), (2, 4)])),
    Step::GivesBack(Seat::First),
    Step::Takes(Seat::Third, "a"),
    Step::Reader(Seat::Third, Call::Reads(1, b"bcde")),
    Step::GivesBack(Seat::Third),
    Step::Tells(&[(0, 4), (2, 4), (1, 4)]),
];

#[test]
fn a_second_reader_is_absorbed(rt: HostRuntime) {
    let unmet = first_unmet(rt.alloc(), &[("a", b"abcdef")], A_SECOND_READER_IS_ABSORBED);
    assert_eq!(rt; unmet, None);
}

const FILES_MADE_AND_MADE_AGAIN: &[Step] = &[
    Step::Creates("a"),
    Step::Holds("a", b""),
    Step::Appends("a", b"abc"),
    Step::Appends("a", b""),
    Step::Appends("a", b"de"),
    Step::Holds("a", b"abcde"),
    Step::Creates("a"),
    Step::Holds("a", b""),
    Step::Holds("b", b"stays"),
];

#[test]
fn files_made_and_made_again(rt: HostRuntime) {
    let unmet = first_unmet(rt.alloc(), &[("b", b"stays")], FILES_MADE_AND_MADE_AGAIN);
    assert_eq!(rt; unmet, None);
}
