// A folder in memory that keeps the names of its files, and counts its readers.
ghost use Rattle.std.specs.Prelude.{Some};

use std::alloc::Global;
use sub_types::NoMemory;
use world::{Folder, FolderError, MemFolder, MemReader};

/// A folder in memory, with the names of its files and the counts of its readers.
#[derive(Drop)]
pub(crate) struct CountingFolder {
    alloc: Global,
    pub(crate) inner: MemFolder,
    /// The names of the files that were put or were to be created, each once.
    pub(crate) names: Vec<String>,
    /// How many readers it gave.
    pub(crate) given: u64,
    /// How many of them were given back.
    pub(crate) returned: u64,
    // How many bytes were to be appended, and how many of them last.
    pieces: usize,
    last_piece: usize,
}

impl CountingFolder {
    /// No files.
    pub(crate) fn new(alloc: Global) -> CountingFolder {
        CountingFolder {
            alloc,
            inner: MemFolder::new(alloc),
            names: Vec::new(alloc),
            given: 0,
            returned: 0,
            pieces: 0,
            last_piece: 0,
        }
    }

    /// Sets a file.
    pub(crate) fn put_file(&mut self, name: &str, bytes: &[u8]) -> Result<(), NoMemory> {
        keep_name(self.alloc, &mut self.names, name)?;
        self.inner.put_file(name, bytes)
    }

    /// Whether a file of that name was put or was to be created.
    pub(crate) fn has_name(&self, name: &str) -> bool {
        is_among(&self.names, name)
    }

    /// How many bytes are left of all pieces, where the last append failed and kept at most so many of its piece.
    pub(crate) fn left_of_pieces(&self, kept: u32) -> usize {
        let before = self.pieces.saturating_sub(self.last_piece);
        before.saturating_add(self.last_piece.min(kept as usize))
    }
}

fn is_among(names: &[String], name: &str) -> bool {
    names.iter().any(|other| other.as_str() == name)
}

// Adds a name that isn't there yet.
fn keep_name(alloc: Global, names: &mut Vec<String>, name: &str) -> Result<(), NoMemory> {
    if !is_among(names, name) {
        names.push(String::from_str(alloc, name)?)?;
    }
    Ok(())
}

impl Folder for CountingFolder {
    type R = MemReader;

    ghost files = { λ counting. Some counting.inner.files };

    ghost reads = { λ counting. Some counting.inner.reads };

    ghost read_faults = { λ counting. counting.inner.read_faults };

    ghost write_faults = { λ counting. counting.inner.write_faults };

    ghost lent = { λ counting. counting.inner.lent };

    fn reader(&mut self, alloc: Global, name: &str) -> Result<Option<MemReader>, FolderError> {
        let found = self.inner.reader(alloc, name)?;
        if found.is_some() {
            self.given = self.given.saturating_add(1);
        }
        Ok(found)
    }

    fn give_back(&mut self, alloc: Global, reader: MemReader) -> Result<(), NoMemory> {
        self.returned = self.returned.saturating_add(1);
        self.inner.give_back(alloc, reader)
    }

    fn create(&mut self, alloc: Global, name: &str) -> Result<(), FolderError> {
        keep_name(self.alloc, &mut self.names, name)?;
        self.inner.create(alloc, name)
    }

    fn append(&mut self, alloc: Global, name: &str, piece: &[u8]) -> Result<(), FolderError> {
        self.last_piece = piece.len();
        self.pieces = self.pieces.saturating_add(piece.len());
        self.inner.append(alloc, name, piece)
    }
}
