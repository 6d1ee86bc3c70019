// The out file stays open between its appends, and each piece goes to its end.
use super::calls::*;
use std_folder::StdFolder;

#[test]
fn pieces_go_to_the_end(rt: HostRuntime) {
    let alloc = rt.alloc();
    let mut folder = StdFolder::new(&rt);
    let before = handles(&rt);
    let seen = [
        puts(&rt, "made", b"older and longer"),
        creates(alloc, &mut folder, "made"),
        holds(&rt, "made", b""),
        has_more(&rt, before, 1),
        appends(alloc, &mut folder, "made", b"abc"),
        appends(alloc, &mut folder, "made", b""),
        appends(alloc, &mut folder, "made", b"de"),
        holds(&rt, "made", b"abcde"),
        adds_beside(&rt, "made", b"XY"),
        appends(alloc, &mut folder, "made", b"f"),
        holds(&rt, "made", b"abcdeXYf"),
        has_more(&rt, before, 1),
    ];
    assert_eq!(rt; first_false(&seen), None);
    drop(folder);
    assert!(rt; has_more(&rt, before, 0));
}

#[test]
fn another_name_takes_the_place(rt: HostRuntime) {
    let alloc = rt.alloc();
    let mut folder = StdFolder::new(&rt);
    let before = handles(&rt);
    let seen = [
        puts(&rt, "one", b"1"),
        creates(alloc, &mut folder, "two"),
        appends(alloc, &mut folder, "one", b"a"),
        has_more(&rt, before, 1),
        appends(alloc, &mut folder, "two", b"b"),
        appends(alloc, &mut folder, "one", b"c"),
        has_more(&rt, before, 1),
        holds(&rt, "one", b"1ac"),
        holds(&rt, "two", b"b"),
        creates(alloc, &mut folder, "one"),
        holds(&rt, "one", b""),
        has_more(&rt, before, 1),
    ];
    assert_eq!(rt; first_false(&seen), None);
}

#[test]
fn the_out_file_may_be_read(rt: HostRuntime) {
    let alloc = rt.alloc();
    let mut folder = StdFolder::new(&rt);
    let put = puts(&rt, "both", b"older bytes");
    let before = handles(&rt);
    let mut older = opened(alloc, &mut folder, "both");
    let seen = [
        put,
        reads(alloc, &mut older, 0, b"olde"),
        creates(alloc, &mut folder, "both"),
        has_length(&mut older, 0),
        fails_to_read(alloc, &mut older, 0),
        appends(alloc, &mut folder, "both", b"new"),
        appends(alloc, &mut folder, "both", b"er"),
        reads(alloc, &mut older, 1, b"ewer"),
    ];
    assert_eq!(rt; first_false(&seen), None);
    let mut newer = opened(alloc, &mut folder, "both");
    let seen = [
        has_more(&rt, before, 3),
        reads(alloc, &mut newer, 0, b"newe"),
        gives_back(alloc, &mut folder, older),
        has_more(&rt, before, 2),
    ];
    assert_eq!(rt; first_false(&seen), None);
    let mut further = opened(alloc, &mut folder, "both");
    let seen = [
        has_more(&rt, before, 2),
        reads(alloc, &mut further, 1, b"ewer"),
        gives_back(alloc, &mut folder, newer),
        gives_back(alloc, &mut folder, further),
        has_more(&rt, before, 1),
    ];
    assert_eq!(rt; first_false(&seen), None);
}
