// Readers of one file share its handle, and read each at its own place.
use super::calls::*;
use std::test::Fail;
use std_folder::StdFolder;

#[test]
fn readers_of_one_file_share_a_handle(rt: HostRuntime) {
    let alloc = rt.alloc();
    let mut folder = StdFolder::new(&rt);
    let put = puts(&rt, "shared", b"abcdefghij");
    let before = handles(&rt);
    let mut first = opened(alloc, &mut folder, "shared");
    let mut other = opened(alloc, &mut folder, "shared");
    let mut third = second(alloc, &mut first);
    let seen = [
        put,
        has_more(&rt, before, 1),
        reads(alloc, &mut first, 0, b"abcd"),
        reads(alloc, &mut other, 6, b"ghij"),
        reads(alloc, &mut third, 3, b"defg"),
        reads(alloc, &mut first, 4, b"efgh"),
        reads(alloc, &mut other, 1, b"bcde"),
        fails_to_read(alloc, &mut third, 7),
        has_length(&mut other, 10),
        absorbs(alloc, &mut first, third),
        gives_back(alloc, &mut folder, first),
        has_more(&rt, before, 1),
        reads(alloc, &mut other, 0, b"abcd"),
        gives_back(alloc, &mut folder, other),
        has_more(&rt, before, 0),
    ];
    assert_eq!(rt; first_false(&seen), None);
}

#[test]
fn a_second_reader_keeps_the_file_open(rt: HostRuntime) {
    let alloc = rt.alloc();
    let mut folder = StdFolder::new(&rt);
    let put = puts(&rt, "kept", b"abcdefghij");
    let before = handles(&rt);
    let mut first = opened(alloc, &mut folder, "kept");
    let mut other = second(alloc, &mut first);
    let seen = [
        put,
        gives_back(alloc, &mut folder, first),
        reads(alloc, &mut other, 2, b"cdef"),
        gives_back(alloc, &mut folder, other),
        has_more(&rt, before, 0),
        finds_none(alloc, &mut folder, "never made"),
        has_more(&rt, before, 0),
    ];
    assert_eq!(rt; first_false(&seen), None);
}

// More readers than a process may have handles where nobody raised its limit.
#[test]
fn three_thousand_readers_need_one_handle(rt: HostRuntime) -> Result<(), Fail> {
    let alloc = rt.alloc();
    let mut folder = StdFolder::new(&rt);
    assert!(rt; puts(&rt, "many", b"abcdefghij"));
    let before = handles(&rt);
    let mut readers = Vec::new(alloc);
    for _ in 0..3000 {
        readers.push(opened(alloc, &mut folder, "many"))?;
    }
    assert!(rt; has_more(&rt, before, 1));
    for mut reader in readers {
        assert!(rt; reads(alloc, &mut reader, 6, b"ghij"));
        assert!(rt; gives_back(alloc, &mut folder, reader));
    }
    assert!(rt; has_more(&rt, before, 0));
    Ok(())
}

#[test]
fn a_folder_is_no_file(rt: HostRuntime) {
    let alloc = rt.alloc();
    let mut folder = StdFolder::new(&rt);
    let made = std::fs::create_dir(&rt, "in_the_way").is_ok();
    let before = handles(&rt);
    let seen = [
        made,
        fails_to_open(alloc, &mut folder, "in_the_way"),
        fails_to_create(alloc, &mut folder, "in_the_way"),
        fails_to_append(alloc, &mut folder, "in_the_way"),
        finds_none(alloc, &mut folder, "in_the_way/nothing"),
        finds_none(alloc, &mut folder, "no_such_folder/nothing"),
        fails_to_create(alloc, &mut folder, "no_such_folder/nothing"),
        fails_to_append(alloc, &mut folder, "no_such_file"),
        has_more(&rt, before, 0),
    ];
    assert_eq!(rt; first_false(&seen), None);
}
