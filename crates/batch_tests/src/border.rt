// Ends of texts where four bytes no longer hold them.
use col_text::Ends;
use std::alloc::Global;

// These ends, of those for which memory was found.
fn ends_of(alloc: Global, list: &[usize]) -> Ends {
    let mut ends = Ends::new(alloc);
    for end in list {
        let _ = ends.push(*end);
    }
    ends
}

// Whether they are these.
fn are(ends: &Ends, list: &[usize]) -> bool {
    if ends.len() != list.len() {
        return false;
    }
    for i in 0..list.len() {
        if ends.get(i) != list[i] {
            return false;
        }
    }
    true
}

// Whether all behind the first, moved by a number that wraps round and put behind a 7, are these.
fn move_to(alloc: Global, list: &[usize], shift: usize, moved: &[usize]) -> bool {
    let ends = ends_of(alloc, list);
    let mut into = ends_of(alloc, &[7]);
    let count = ends.len();
    if count == 0 || into.extend_moved(&ends, 1, count, shift).is_err() {
        return false;
    }
    are(&into, moved)
}

#[test]
fn past_four_bytes(rt: HostRuntime) {
    let alloc = rt.alloc();
    let list = [0, 4294967295, 4294967296, 4294967296, 4294967301];
    let mut ends = ends_of(alloc, &list);
    let mut seen = [
        are(&ends, &list) && ends.last() == 4294967301 && ends.narrow().is_none(),
        move_to(
            alloc,
            &list,
            2,
            &[7, 4294967297, 4294967298, 4294967298, 4294967303],
        ),
        // 2^64 less 4294967295: the ends are moved back.
        move_to(alloc, &list, 18446744069414584321, &[7, 0, 1, 1, 6]),
        move_to(
            alloc,
            &[0, 4294967290, 4294967294],
            1,
            &[7, 4294967291, 4294967295],
        ),
        move_to(
            alloc,
            &[0, 4294967290, 4294967295],
            1,
            &[7, 4294967291, 4294967296],
        ),
        move_to(alloc, &[3, 4, 9], 18446744073709551613, &[7, 1, 6]),
        false,
        false,
    ];
    ends.truncate(3);
    seen[6] = are(&ends, &list[0..3]);
    ends.truncate(1);
    let _ = ends.push(5);
    seen[7] = are(&ends, &[0, 5]) && ends.last() == 5 && ends.narrow().is_some();
    assert!(rt; seen == [true; 8]);
}
