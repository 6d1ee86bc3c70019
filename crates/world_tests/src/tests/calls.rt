// Calls of a folder and of its readers, each with a plain answer and without clauses, so that a test's proof has no more
// to do with them.
use std::alloc::Global;
use world::{Folder, FolderError, MemFolder, MemReader, Reader};

/// A call that is to fail.
#[derive(Clone, Copy)]
pub(super) enum Failure {
    Open(&'static str),
    Len(&'static str),
    Read(&'static str, u32),
    At(&'static str, u64),
    Again(&'static str, u32),
    Create,
    Append(u32, u32),
}

// Plans the failure.
pub(super) fn plans(folder: &mut MemFolder, failure: Failure) -> bool {
    match failure {
        Failure::Open(name) => folder.fail_open(name).is_ok(),
        Failure::Len(name) => folder.fail_len(name).is_ok(),
        Failure::Read(name, index) => folder.fail_read(name, index).is_ok(),
        Failure::At(name, place) => folder.fail_at(name, place).is_ok(),
        Failure::Again(name, index) => folder.fail_again(name, index).is_ok(),
        Failure::Create => {
            folder.fail_create();
            true
        }
        Failure::Append(index, kept) => folder.fail_append(index, kept).is_ok(),
    }
}

// A folder of these files, of those for which memory was found.
pub(super) fn folder_of(alloc: Global, files: &[(&str, &[u8])]) -> MemFolder {
    let mut folder = MemFolder::new(alloc);
    for (name, bytes) in files {
        let _ = folder.put_file(name, bytes);
    }
    folder
}

pub(super) fn puts(folder: &mut MemFolder, name: &str, bytes: &[u8]) -> bool {
    folder.put_file(name, bytes).is_ok()
}

pub(super) fn clears(folder: &mut MemFolder) -> bool {
    folder.clear();
    true
}

// Whether the named file is there and holds these bytes.
pub(super) fn holds(folder: &MemFolder, name: &str, bytes: &[u8]) -> bool {
    match folder.file(name) {
        Some(found) => found == bytes,
        None => false,
    }
}

// Whether the named file isn't there.
pub(super) fn lacks(folder: &MemFolder, name: &str) -> bool {
    folder.file(name).is_none()
}

// Whether the readers that were given back were asked for this.
pub(super) fn tells(folder: &MemFolder, reads: &[(u64, u64)]) -> bool {
    folder.reads() == reads
}

// A reader of the named file, where it is there and the call doesn't fail.
pub(super) fn opened(alloc: Global, folder: &mut MemFolder, name: &str) -> Option<MemReader> {
    match folder.reader(alloc, name) {
        Ok(found) => found,
        Err(_) => None,
    }
}

pub(super) fn opens(alloc: Global, folder: &mut MemFolder, name: &str) -> bool {
    opened(alloc, folder, name).is_some()
}

// Whether no file of that name is found.
pub(super) fn finds_none(alloc: Global, folder: &mut MemFolder, name: &str) -> bool {
    match folder.reader(alloc, name) {
        Ok(found) => found.is_none(),
        Err(_) => false,
    }
}

pub(super) fn fails_to_open(alloc: Global, folder: &mut MemFolder, name: &str) -> bool {
    match folder.reader(alloc, name) {
        Ok(_) => false,
        Err(error) => error == FolderError::Failed,
    }
}

pub(super) fn gives_back(alloc: Global, folder: &mut MemFolder, reader: Option<MemReader>) -> bool {
    match reader {
        Some(reader) => folder.give_back(alloc, reader).is_ok(),
        None => false,
    }
}

pub(super) fn creates(alloc: Global, folder: &mut MemFolder, name: &str) -> bool {
    folder.create(alloc, name) == Ok(())
}

pub(super) fn fails_to_create(alloc: Global, folder: &mut MemFolder, name: &str) -> bool {
    folder.create(alloc, name) == Err(FolderError::Failed)
}

// Adds the piece to a file; what the call answered, or `None` where the file isn't there.
#[tactic(auto, unfolding(world::specs::Files::Has))]
fn appended(
    alloc: Global,
    folder: &mut MemFolder,
    name: &str,
    piece: &[u8],
) -> Option<Result<(), FolderError>> {
    if folder.file(name).is_none() {
        return None;
    }
    Some(folder.append(alloc, name, piece))
}

pub(super) fn appends(alloc: Global, folder: &mut MemFolder, name: &str, piece: &[u8]) -> bool {
    appended(alloc, folder, name, piece) == Some(Ok(()))
}

pub(super) fn fails_to_append(
    alloc: Global,
    folder: &mut MemFolder,
    name: &str,
    piece: &[u8],
) -> bool {
    appended(alloc, folder, name, piece) == Some(Err(FolderError::Failed))
}

// Whether a reader is there, and a read of four bytes from a place on gives these.
pub(super) fn reads<R: Reader>(
    alloc: Global,
    reader: &mut Option<R>,
    at: u64,
    want: &[u8; 4],
) -> bool {
    four_from(alloc, reader, at) == Some(Ok(*want))
}

// Whether such a read fails.
pub(super) fn fails_to_read<R: Reader>(alloc: Global, reader: &mut Option<R>, at: u64) -> bool {
    four_from(alloc, reader, at) == Some(Err(FolderError::Failed))
}

// The four bytes from a place on, or `None` where the file is too short.
fn four_from<R: Reader>(
    alloc: Global,
    reader: &mut Option<R>,
    at: u64,
) -> Option<Result<[u8; 4], FolderError>> {
    let Some(reader) = reader else {
        return None;
    };
    let Ok(len) = reader.len() else {
        return None;
    };
    if len < 4 || at > len - 4 {
        return None;
    }
    let mut bytes = [0; 4];
    match reader.read_at(alloc, at, &mut bytes) {
        Ok(()) => Some(Ok(bytes)),
        Err(error) => Some(Err(error)),
    }
}

// Whether a reader is there and tells this length.
pub(super) fn has_length<R: Reader>(reader: &mut Option<R>, want: u64) -> bool {
    match reader {
        Some(reader) => reader.len() == Ok(want),
        None => false,
    }
}

pub(super) fn fails_to_tell_its_length<R: Reader>(reader: &mut Option<R>) -> bool {
    match reader {
        Some(reader) => reader.len() == Err(FolderError::Failed),
        None => false,
    }
}

// A second reader, where there is one and the call doesn't fail.
pub(super) fn second<R: Reader>(alloc: Global, reader: &mut Option<R>) -> Option<R> {
    match reader {
        Some(reader) => reader.again(alloc).ok(),
        None => None,
    }
}

pub(super) fn fails_to_open_a_second<R: Reader>(alloc: Global, reader: &mut Option<R>) -> bool {
    match reader {
        Some(reader) => match reader.again(alloc) {
            Ok(_) => false,
            Err(error) => error == FolderError::Failed,
        },
        None => false,
    }
}

pub(super) fn absorbs<R: Reader>(alloc: Global, reader: &mut Option<R>, other: Option<R>) -> bool {
    match (reader, other) {
        (Some(reader), Some(other)) => reader.absorb(alloc, other).is_ok(),
        _ => false,
    }
}

// Whether the reader was asked for this.
pub(super) fn was_asked(reader: &Option<MemReader>, reads: &[(u64, u64)]) -> bool {
    match reader {
        Some(reader) => reader.reads() == reads,
        None => false,
    }
}

// Which of these doesn't hold, if one doesn't.
pub(super) fn first_false(seen: &[bool]) -> Option<usize> {
    seen.iter().position(|holds| !*holds)
}
