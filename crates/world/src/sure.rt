// A folder in memory whose calls never fail, and its readers: their counts of faults are always 0.
ghost use Rattle.std.specs.Prelude.{◌≡◌, [], Some, OnOk, OnErr};
ghost use Rattle.std.specs.Option.{option_copied};
ghost use Rattle.std.specs.FinMap as map;
ghost use Rattle.world.specs.Told.{SureTold};

use crate::file_table::FileTable;
use crate::lent::one_more;
use crate::{Folder, FolderError, Reader};
use std::alloc::Global;
use std::marker::Model;
use std::sync::Arc;
use sub_types::NoMemory;

/// A reader of a file in memory. Its bytes are shared with its further readers.
#[derive(Drop)]
pub struct SureReader {
    alloc: Global,
    bytes: Arc<Vec<u8>>,
    reads: Vec<(u64, u64)>,
}

impl Model for SureReader {
    ghost use Rattle.std.specs.Arc.{arc_value};
    ghost use Rattle.world.specs.Told.{SureOpened};

    ghost Value = { SureOpened };

    ghost view = { λ reader. record { bytes = (arc_value reader.bytes).items; reads = reader.reads.items } };
}

#[tactic(auto, unfolding(crate::specs::Reads::joined_reads, crate::specs::Reads::reads_after, crate::specs::Reads::IsUnread))]
impl Reader for SureReader {
    ghost bytes = { λ reader. Some reader.bytes };

    ghost reads = { λ reader. Some reader.reads };

    ghost faults = { λ _. 0 };

    fn len(&mut self) -> Result<u64, FolderError> {
        Ok(self.bytes.len() as u64)
    }

    fn read_at(&mut self, _alloc: Global, at: u64, into: &mut [u8]) -> Result<(), FolderError> {
        if self.reads.push((at, into.len() as u64)).is_err() {
            return Err(FolderError::NoMemory);
        }
        let from = at as usize;
        into.copy_from_slice(&self.bytes[from..from + into.len()]);
        Ok(())
    }

    fn again(&mut self, _alloc: Global) -> Result<Self, FolderError> {
        Ok(SureReader {
            alloc: self.alloc,
            bytes: Arc::try_clone(&self.bytes)?,
            reads: Vec::new(self.alloc),
        })
    }

    fn absorb(&mut self, _alloc: Global, other: Self) -> Result<(), NoMemory> {
        self.reads.extend_from_slice(&other.reads)?;
        Ok(())
    }
}

/// A folder in memory whose calls never fail.
#[derive(Drop)]
pub struct SureFolder {
    alloc: Global,
    files: FileTable,
    reads: Vec<(u64, u64)>,
    lent: u64,
}

impl Model for SureFolder {
    ghost use Rattle.world.specs.Told.{SureTold, sure_code};

    ghost Value = { SureTold };

    ghost coded = { sure_code };

    ghost view = { λ folder. record { files = folder.files; reads = folder.reads.items; lent = folder.lent } };
}

impl SureFolder {
    /// No files.
    pub fn new(alloc: Global) -> SureFolder
        ensures { result ≡ record { files = map.empty; reads = []; lent = 0 } }
    {
        SureFolder {
            alloc,
            files: FileTable::new(alloc),
            reads: Vec::new(alloc),
            lent: 0,
        }
    }

    /// Sets a file.
    pub fn put_file(&mut self, name: &str, bytes: &[u8]) -> Result<(), NoMemory>
        ensures ok { OnOk result (self.new ≡ record self.old { files = map.insert self.old.files name.now bytes.now }) }
        ensures err { OnErr result (self.new ≡ self.old) }
    {
        self.files.put(name, bytes.to_vec(self.alloc)?)
    }

    /// The named file, or `None` where it isn't there.
    pub fn file(&self, name: &str) -> Option<&[u8]>
        ensures { option_copied result ≡ map.get self.now.files name.now }
    {
        self.files.file(name)
    }
}

#[tactic(auto, unfolding(crate::specs::Files::written, crate::specs::Files::appended, crate::specs::Files::Has, crate::specs::Files::IsLookup, crate::specs::Reads::joined_reads, crate::specs::Reads::IsUnread))]
impl Folder for SureFolder {
    type R = SureReader;

    ghost files = { λ folder. Some folder.files };

    ghost reads = { λ folder. Some folder.reads };

    ghost read_faults = { λ _. 0 };

    ghost write_faults = { λ _. 0 };

    ghost lent = { λ folder. folder.lent };

    fn reader(&mut self, _alloc: Global, name: &str) -> Result<Option<SureReader>, FolderError> {
        let Some(bytes) = self.files.file(name) else {
            return Ok(None);
        };
        let bytes = bytes.to_vec(self.alloc)?;
        let reader = SureReader {
            alloc: self.alloc,
            bytes: Arc::new(self.alloc, bytes)?,
            reads: Vec::new(self.alloc),
        };
        self.lent = one_more(self.lent)?;
        Ok(Some(reader))
    }

    fn give_back(&mut self, _alloc: Global, reader: SureReader) -> Result<(), NoMemory> {
        self.lent = self.lent.saturating_sub(1);
        self.reads.extend_from_slice(&reader.reads)?;
        Ok(())
    }

    fn create(&mut self, _alloc: Global, name: &str) -> Result<(), FolderError> {
        Ok(self.files.put(name, Vec::new(self.alloc))?)
    }

    fn append(&mut self, _alloc: Global, name: &str, piece: &[u8]) -> Result<(), FolderError> {
        Ok(self.files.append(name, piece)?)
    }
}
