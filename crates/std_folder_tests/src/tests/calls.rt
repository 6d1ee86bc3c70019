// Calls of a folder and of its readers, each with a plain answer and without clauses, so that a test's proof has no more
// to do with them.
use std::alloc::Global;
use std::fs;
use std::fs::OpenOptions;
use std::io::Write;
use std_folder::{StdFolder, StdReader};
use world::{Folder, FolderError, Reader};

pub(super) fn first_false(seen: &[bool]) -> Option<usize> {
    seen.iter().position(|held| !*held)
}

// How many handles this process has, the one of the listing among them, or 0 where that can't be told.
pub(super) fn handles(rt: &HostRuntime) -> usize {
    match fs::read_dir(rt, "/proc/self/fd") {
        Ok(listing) => listing.count(),
        Err(_) => 0,
    }
}

// Whether this process has so many handles more than before.
pub(super) fn has_more(rt: &HostRuntime, before: usize, more: usize) -> bool {
    before > 0 && handles(rt) == before.saturating_add(more)
}

// Makes a file without the folder.
pub(super) fn puts(rt: &HostRuntime, name: &str, bytes: &[u8]) -> bool {
    fs::write(rt, name, bytes).is_ok()
}

// Adds to a file without the folder.
pub(super) fn adds_beside(rt: &HostRuntime, name: &str, piece: &[u8]) -> bool {
    match OpenOptions::new().append(true).open(rt, name) {
        Ok(mut file) => file.write_all(piece).is_ok(),
        Err(_) => false,
    }
}

// Whether the file holds these bytes, read without the folder.
pub(super) fn holds(rt: &HostRuntime, name: &str, bytes: &[u8]) -> bool {
    match fs::read(rt, name) {
        Ok(found) => found.as_slice() == bytes,
        Err(_) => false,
    }
}

// A reader of the named file, where it is there and the call doesn't fail.
pub(super) fn opened(
    alloc: Global,
    folder: &mut StdFolder<'_, HostRuntime>,
    name: &str,
) -> Option<StdReader> {
    match folder.reader(alloc, name) {
        Ok(found) => found,
        Err(_) => None,
    }
}

pub(super) fn finds_none(
    alloc: Global,
    folder: &mut StdFolder<'_, HostRuntime>,
    name: &str,
) -> bool {
    match folder.reader(alloc, name) {
        Ok(found) => found.is_none(),
        Err(_) => false,
    }
}

pub(super) fn fails_to_open(
    alloc: Global,
    folder: &mut StdFolder<'_, HostRuntime>,
    name: &str,
) -> bool {
    match folder.reader(alloc, name) {
        Ok(_) => false,
        Err(error) => error == FolderError::Failed,
    }
}

pub(super) fn gives_back(
    alloc: Global,
    folder: &mut StdFolder<'_, HostRuntime>,
    reader: Option<StdReader>,
) -> bool {
    match reader {
        Some(reader) => folder.give_back(alloc, reader).is_ok(),
        None => false,
    }
}

pub(super) fn creates(alloc: Global, folder: &mut StdFolder<'_, HostRuntime>, name: &str) -> bool {
    folder.create(alloc, name) == Ok(())
}

pub(super) fn fails_to_create(
    alloc: Global,
    folder: &mut StdFolder<'_, HostRuntime>,
    name: &str,
) -> bool {
    folder.create(alloc, name) == Err(FolderError::Failed)
}

pub(super) fn appends(
    alloc: Global,
    folder: &mut StdFolder<'_, HostRuntime>,
    name: &str,
    piece: &[u8],
) -> bool {
    folder.append(alloc, name, piece) == Ok(())
}

pub(super) fn fails_to_append(
    alloc: Global,
    folder: &mut StdFolder<'_, HostRuntime>,
    name: &str,
) -> bool {
    folder.append(alloc, name, b"lost") == Err(FolderError::Failed)
}

// Whether the four bytes from that place on are these.
pub(super) fn reads(
    alloc: Global,
    reader: &mut Option<StdReader>,
    at: u64,
    wanted: &[u8; 4],
) -> bool {
    let mut bytes = [0u8; 4];
    match reader {
        Some(reader) => reader.read_at(alloc, at, &mut bytes).is_ok() && bytes == *wanted,
        None => false,
    }
}

// Whether four bytes from that place on can't be read.
pub(super) fn fails_to_read(alloc: Global, reader: &mut Option<StdReader>, at: u64) -> bool {
    let mut bytes = [0u8; 4];
    match reader {
        Some(reader) => reader.read_at(alloc, at, &mut bytes) == Err(FolderError::Failed),
        None => false,
    }
}

pub(super) fn has_length(reader: &mut Option<StdReader>, wanted: u64) -> bool {
    match reader {
        Some(reader) => reader.len() == Ok(wanted),
        None => false,
    }
}

// A second reader of the same file.
pub(super) fn second(alloc: Global, reader: &mut Option<StdReader>) -> Option<StdReader> {
    match reader {
        Some(reader) => reader.again(alloc).ok(),
        None => None,
    }
}

pub(super) fn absorbs(
    alloc: Global,
    reader: &mut Option<StdReader>,
    other: Option<StdReader>,
) -> bool {
    match (reader, other) {
        (Some(reader), Some(other)) => reader.absorb(alloc, other).is_ok(),
        _ => false,
    }
}
