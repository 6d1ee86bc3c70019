// A folder in memory with planned failures: which call fails, and what the folder holds after it.
use super::calls::Failure;
use super::steps::{Call, Seat, Step, first_unmet};

const A_READ_BY_ITS_INDEX: &[Step] = &[
    Step::Plans(Failure::Read("a", 1)),
    Step::Takes(Seat::First, "a"),
    Step::Reader(Seat::First, Call::Reads(0, b"abcd")),
    Step::Reader(Seat::First, Call::FailsToRead(2)),
    Step::Reader(Seat::First, Call::Reads(2, b"cdef")),
    // A read that failed was asked for too.
    Step::Reader(Seat::First, Call::WasAsked(&[(0, 4), (2, 4), (2, 4)])),
    Step::GivesBack(Seat::First),
    Step::Tells(&[(0, 4), (2, 4), (2, 4)]),
    Step::Holds("a", b"abcdef"),
];

#[test]
fn a_read_by_its_index(rt: HostRuntime) {
    let unmet = first_unmet(rt.alloc(), &[("a", b"abcdef")], A_READ_BY_ITS_INDEX);
    assert_eq!(rt; unmet, None);
}

const EACH_READER_OF_THE_NAME_COUNTS_FOR_ITSELF: &[Step] = &[
    Step::Plans(Failure::Read("a", 1)),
    Step::Takes(Seat::First, "a"),
    Step::Takes(Seat::Second, "a"),
    Step::Takes(Seat::Third, "b"),
    Step::Reader(Seat::First, Call::Reads(0, b"abcd")),
    Step::Reader(Seat::Second, Call::Reads(1, b"bcde")),
    Step::Reader(Seat::Second, Call::FailsToRead(1)),
    // Other names aren't met.
    Step::Reader(Seat::Third, Call::Reads(1, b"bcde")),
    Step::Reader(Seat::Third, Call::Reads(1, b"bcde")),
];

#[test]
fn each_reader_of_the_name_counts_for_itself(rt: HostRuntime) {
    let unmet = first_unmet(
        rt.alloc(),
        &[("a", b"abcdef"), ("b", b"abcdef")],
        EACH_READER_OF_THE_NAME_COUNTS_FOR_ITSELF,
    );
    assert_eq!(rt; unmet, None);
}

const READS_BY_THEIR_PLACE: &[Step] = &[
    Step::Plans(Failure::At("a", 2)),
    Step::Takes(Seat::First, "a"),
    Step::Reader(Seat::First, Call::Seconds(Seat::Second)),
    Step::Reader(Seat::First, Call::Reads(1, b"bcde")),
    Step::Reader(Seat::First, Call::FailsToRead(2)),
    Step::Reader(Seat::First, Call::FailsToRead(2)),
    Step::Reader(Seat::First, Call::Reads(0, b"abcd")),
    Step::Reader(Seat::Second, Call::FailsToRead(2)),
];

#[test]
fn reads_by_their_place(rt: HostRuntime) {
    let unmet = first_unmet(rt.alloc(), &[("a", b"abcdef")], READS_BY_THEIR_PLACE);
    assert_eq!(rt; unmet, None);
}

const OPENING_BY_NAME: &[Step] = &[
    Step::Plans(Failure::Open("a")),
    Step::Plans(Failure::Open("absent")),
    Step::FailsToOpen("a"),
    Step::FailsToOpen("a"),
    Step::FailsToOpen("absent"),
    Step::Opens("b"),
    Step::Holds("a", b"abc"),
    Step::Tells(&[]),
];

#[test]
fn opening_by_name(rt: HostRuntime) {
    let unmet = first_unmet(rt.alloc(), &[("a", b"abc"), ("b", b"abc")], OPENING_BY_NAME);
    assert_eq!(rt; unmet, None);
}

const LENGTHS_BY_NAME: &[Step] = &[
    Step::Plans(Failure::Len("a")),
    Step::Takes(Seat::First, "a"),
    Step::Takes(Seat::Second, "b"),
    Step::Reader(Seat::First, Call::FailsToTellItsLength),
    Step::Reader(Seat::First, Call::FailsToTellItsLength),
    Step::Reader(Seat::First, Call::WasAsked(&[])),
    Step::Reader(Seat::Second, Call::HasLength(4)),
];

#[test]
fn lengths_by_name(rt: HostRuntime) {
    let unmet = first_unmet(
        rt.alloc(),
        &[("a", b"abc"), ("b", b"abcd")],
        LENGTHS_BY_NAME,
    );
    assert_eq!(rt; unmet, None);
}

const A_SECOND_READER_BY_ITS_INDEX: &[Step] = &[
    Step::Plans(Failure::Again("a", 1)),
    Step::Takes(Seat::First, "a"),
    Step::Reader(Seat::First, Call::Seconds(Seat::Second)),
    Step::Reader(Seat::First, Call::FailsToOpenASecond),
    Step::Reader(Seat::First, Call::HasSecond),
    // The second reader counts for itself.
    Step::Reader(Seat::Second, Call::HasSecond),
    Step::Reader(Seat::Second, Call::FailsToOpenASecond),
    Step::Reader(Seat::Second, Call::Reads(2, b"cdef")),
    Step::Reader(Seat::First, Call::Absorbs(Seat::Second)),
    Step::Reader(Seat::First, Call::WasAsked(&[(2, 4)])),
];

#[test]
fn a_second_reader_by_its_index(rt: HostRuntime) {
    let unmet = first_unmet(
        rt.alloc(),
        &[("a", b"abcdef")],
        A_SECOND_READER_BY_ITS_INDEX,
    );
    assert_eq!(rt; unmet, None);
}

const THE_NEXT_CREATION: &[Step] = &[
    Step::Plans(Failure::Create),
    Step::FailsToCreate("a"),
    Step::Holds("a", b"abc"),
    Step::Creates("a"),
    Step::Holds("a", b""),
    Step::Plans(Failure::Create),
    Step::FailsToCreate("b"),
    Step::Lacks("b"),
];

#[test]
fn the_next_creation(rt: HostRuntime) {
    let unmet = first_unmet(rt.alloc(), &[("a", b"abc")], THE_NEXT_CREATION);
    assert_eq!(rt; unmet, None);
}

const APPENDS_BY_THEIR_INDEX: &[Step] = &[
    // The first keeps two bytes, the second all, and the third none.
    Step::Plans(Failure::Append(2, 2)),
    Step::Plans(Failure::Append(3, 9)),
    Step::Plans(Failure::Append(4, 0)),
    // The index counts the appends to all files.
    Step::Appends("a", b"abc"),
    Step::Appends("b", b"x"),
    Step::FailsToAppend("a", b"defg"),
    Step::Holds("a", b"abcde"),
    Step::FailsToAppend("a", b"fg"),
    Step::Holds("a", b"abcdefg"),
    Step::FailsToAppend("a", b"hi"),
    Step::Holds("a", b"abcdefg"),
    Step::Appends("a", b"h"),
    Step::Holds("a", b"abcdefgh"),
    Step::Holds("b", b"x"),
];

#[test]
fn appends_by_their_index(rt: HostRuntime) {
    let unmet = first_unmet(
        rt.alloc(),
        &[("a", b""), ("b", b"")],
        APPENDS_BY_THEIR_INDEX,
    );
    assert_eq!(rt; unmet, None);
}

const NONE_ONCE_THEY_ARE_CLEARED: &[Step] = &[
    // Each kind of failure, at the first call that can meet it.
    Step::Plans(Failure::Read("a", 0)),
    Step::Plans(Failure::At("a", 0)),
    Step::Plans(Failure::Open("a")),
    Step::Plans(Failure::Len("a")),
    Step::Plans(Failure::Again("a", 0)),
    Step::Plans(Failure::Create),
    Step::Plans(Failure::Append(0, 0)),
    Step::Clears,
    Step::Takes(Seat::First, "a"),
    Step::Reader(Seat::First, Call::Seconds(Seat::Second)),
    Step::Reader(Seat::Second, Call::Reads(0, b"abcd")),
    Step::Creates("a"),
    Step::Appends("a", b"e"),
    Step::Holds("a", b"e"),
];

#[test]
fn none_once_they_are_cleared(rt: HostRuntime) {
    let unmet = first_unmet(rt.alloc(), &[("a", b"abcd")], NONE_ONCE_THEY_ARE_CLEARED);
    assert_eq!(rt; unmet, None);
}

const THE_COUNT_OF_APPENDS_GOES_ON: &[Step] = &[
    Step::Appends("a", b"e"),
    Step::Plans(Failure::Append(0, 0)),
    Step::Appends("a", b"f"),
    Step::Clears,
    Step::Plans(Failure::Append(2, 0)),
    Step::FailsToAppend("a", b"g"),
    Step::Holds("a", b"ef"),
];

#[test]
fn the_count_of_appends_goes_on(rt: HostRuntime) {
    let unmet = first_unmet(rt.alloc(), &[("a", b"")], THE_COUNT_OF_APPENDS_GOES_ON);
    assert_eq!(rt; unmet, None);
}
