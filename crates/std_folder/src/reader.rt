// A reader of an open file.
ghost use Rattle.std.specs.Prelude.{◌≡◌, ◌≢◌, ◌≤◌, None, Err, IfOk};
ghost use Rattle.world.specs.Counts.{sum_of_counts};
ghost use Rattle.world.specs.Reads.{IsFresh};

use crate::open_files::SharedFile;
use std::alloc::Global;
use std::marker::Model;
use std::os::unix::fs::FileExt;
use sub_types::NoMemory;
use world::{FolderError, Reader};

/// A reader of an open file, by place. All readers of a file share its handle, in whatever thread they are.
#[derive(Drop)]
pub struct StdReader {
    shared: SharedFile,
    faults: u64,
}

impl Model for StdReader {
    ghost use Rattle.std_folder.specs.Seen.{SeenReader, reader_code};

    ghost Value = { SeenReader };

    ghost coded = { reader_code };

    ghost view = { λ reader. record { name = reader.shared; faults = reader.faults } };
}

impl StdReader {
    // A reader that was asked for nothing yet.
    pub(crate) fn new(shared: SharedFile) -> StdReader
        ensures { result ≡ record { name = shared; faults = 0 } }
    {
        StdReader { shared, faults: 0 }
    }

    // Its share of the file, and how often its calls failed.
    pub(crate) fn into_parts(self) -> (SharedFile, u64)
        ensures share { result.0 ≡ self.name }
        ensures faults { result.1 ≡ self.faults }
    {
        (self.shared, self.faults)
    }

    // One more fault.
    fn fault(&mut self) -> FolderError
        ensures error { result ≡ FolderError.Failed }
        ensures count { self.new ≡ record self.old { faults = sum_of_counts self.old.faults 1 } }
        ensures never_falls { self.old.faults ≤ self.new.faults }
    {
        self.faults = self.faults.saturating_add(1);
        FolderError::Failed
    }
}

#[tactic(auto, unfolding(world::specs::Reads::joined_reads, world::specs::Reads::reads_after, world::specs::Reads::IsUnread))]
impl Reader for StdReader {
    ghost bytes = { λ _. None };

    ghost reads = { λ _. None };

    ghost faults = { λ reader. reader.faults };

    fn len(&mut self) -> Result<u64, FolderError> {
        match self.shared.file().metadata() {
            Ok(metadata) => Ok(metadata.len()),
            Err(_) => Err(self.fault()),
        }
    }

    fn read_at(&mut self, _alloc: Global, at: u64, into: &mut [u8]) -> Result<(), FolderError> {
        match self.shared.file().read_exact_at(into, at) {
            Ok(()) => Ok(()),
            Err(_) => Err(self.fault()),
        }
    }

    /// A second reader, which shares the open file. It opens nothing, so only memory can be wanting.
    fn again(&mut self, _alloc: Global) -> Result<Self, FolderError>
        ensures second { IfOk result (λ second. second ≡ record { name = self.old.name; faults = 0 }) }
        ensures fresh { IfOk result (λ second. IsFresh second.faults None) }
        ensures memory { result ≢ Err FolderError.Failed }
        ensures stays { self.new ≡ self.old }
    {
        Ok(StdReader::new(self.shared.again()?))
    }

    fn absorb(&mut self, _alloc: Global, other: Self) -> Result<(), NoMemory> {
        self.faults = self.faults.saturating_add(other.faults);
        Ok(())
    }
}
