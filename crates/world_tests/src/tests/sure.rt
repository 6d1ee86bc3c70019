// The folder in memory whose calls never fail.
use super::calls::{absorbs, first_false, has_length, reads, second};
use std::alloc::Global;
use world::{Folder, SureFolder, SureReader};

fn puts(folder: &mut SureFolder, name: &str, bytes: &[u8]) -> bool {
    folder.put_file(name, bytes).is_ok()
}

// Whether the named file is there and holds these bytes.
fn holds(folder: &SureFolder, name: &str, bytes: &[u8]) -> bool {
    match folder.file(name) {
        Some(found) => found == bytes,
        None => false,
    }
}

fn lacks(folder: &SureFolder, name: &str) -> bool {
    folder.file(name).is_none()
}

fn creates(alloc: Global, folder: &mut SureFolder, name: &str) -> bool {
    folder.create(alloc, name) == Ok(())
}

// Adds the piece to a file; whether it was there and the call didn't fail.
#[tactic(auto, unfolding(world::specs::Files::Has))]
fn appends(alloc: Global, folder: &mut SureFolder, name: &str, piece: &[u8]) -> bool {
    folder.file(name).is_some() && folder.append(alloc, name, piece) == Ok(())
}

fn opened(alloc: Global, folder: &mut SureFolder, name: &str) -> Option<SureReader> {
    match folder.reader(alloc, name) {
        Ok(found) => found,
        Err(_) => None,
    }
}

fn finds_none(alloc: Global, folder: &mut SureFolder, name: &str) -> bool {
    match folder.reader(alloc, name) {
        Ok(found) => found.is_none(),
        Err(_) => false,
    }
}

fn gives_back(alloc: Global, folder: &mut SureFolder, reader: Option<SureReader>) -> bool {
    match reader {
        Some(reader) => folder.give_back(alloc, reader).is_ok(),
        None => false,
    }
}

// Two files that are put, of which one grows.
fn grows(alloc: Global, folder: &mut SureFolder) -> bool {
    lacks(folder, "a")
        && puts(folder, "a", b"old")
        && puts(folder, "b", b"stays")
        && holds(folder, "a", b"old")
        && appends(alloc, folder, "a", b"er")
        && holds(folder, "a", b"older")
}

// One of them is made again, and a third is made.
fn makes(alloc: Global, folder: &mut SureFolder) -> bool {
    creates(alloc, folder, "a")
        && holds(folder, "a", b"")
        && creates(alloc, folder, "c")
        && appends(alloc, folder, "c", b"new")
        && holds(folder, "c", b"new")
        && holds(folder, "b", b"stays")
}

#[test]
fn files_are_made_and_grow(rt: HostRuntime) {
    let alloc = rt.alloc();
    let mut folder = SureFolder::new(alloc);
    let seen = [grows(alloc, &mut folder), makes(alloc, &mut folder)];
    assert_eq!(rt; first_false(&seen), None);
}

// Whether readers of the file `a` read what it was before it is put once more.
fn reads_earlier(
    alloc: Global,
    folder: &mut SureFolder,
    reader: &mut Option<SureReader>,
    other: &mut Option<SureReader>,
) -> bool {
    finds_none(alloc, folder, "b")
        && has_length(reader, 6)
        && puts(folder, "a", b"later")
        && reads(alloc, reader, 2, b"cdef")
        && reads(alloc, other, 0, b"abcd")
}

#[test]
fn its_readers_keep_their_bytes(rt: HostRuntime) {
    let alloc = rt.alloc();
    let mut folder = SureFolder::new(alloc);
    let put = puts(&mut folder, "a", b"abcdef");
    let mut reader = opened(alloc, &mut folder, "a");
    let mut other = second(alloc, &mut reader);
    let seen = [
        put,
        reads_earlier(alloc, &mut folder, &mut reader, &mut other),
        absorbs(alloc, &mut reader, other),
        gives_back(alloc, &mut folder, reader),
        holds(&folder, "a", b"later"),
    ];
    assert_eq!(rt; first_false(&seen), None);
}
