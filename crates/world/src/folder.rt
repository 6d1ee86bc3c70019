// A folder of files.
ghost use Rattle.std.specs.Prelude.{◌≡◌, ◌-◌, ◌≤◌, [], ℕ, List, Option, if◌then◌else◌, is_ok, IfOk, IfErr, OnOk, IfSome};
ghost use Rattle.std.specs.Option.{option_map};
ghost use Rattle.world.specs.Counts.{HasCause, IsStill, sum_of_counts};
ghost use Rattle.world.specs.Lent.{lent_after};
ghost use Rattle.world.specs.Reads.{Reads, joined_reads, IsFresh};
ghost use Rattle.world.specs.Files.{Files, written, appended, Has, IsLookup, CreateLeaves, AppendLeaves};

use crate::{FolderError, Reader};
use std::alloc::Global;
use std::marker::Send;
use sub_types::NoMemory;

/// A folder of files. It tells its files and the reads of them, or neither.
pub trait Folder {
    /// Its readers, which may go to other threads.
    type R: Reader + Send;

    /// The files by the bytes of their names, where they are told.
    ghost files: { Self → Option Files };

    /// The reads of all readers that were given back, where they are told.
    ghost reads: { Self → Option Reads };

    /// How often a read failed.
    ghost read_faults: { Self → ℕ };

    /// How often a write failed.
    ghost write_faults: { Self → ℕ };

    /// How many readers were given and not given back.
    ghost lent: { Self → ℕ };

    /// A reader of the named file, or `None` where it isn't there.
    fn reader(&mut self, alloc: Global, name: &str) -> Result<Option<Self::R>, FolderError>
        ensures found { IfOk result (λ found. IsLookup (files self.old) name.now (option_map Self.R.bytes found)) }
        ensures fresh { IfOk result (λ found. IfSome found (λ reader. IsFresh (Self.R.faults reader) (Self.R.reads reader))) }
        ensures cause { HasCause FolderError.Failed (read_faults self.old) (read_faults self.new) result }
        ensures still { IsStill (read_faults self.old) (read_faults self.new) result }
        ensures lent { lent self.new ≡ lent_after result (lent self.old) }
        ensures files { files self.new ≡ files self.old }
        ensures reads { reads self.new ≡ reads self.old }
        ensures write_faults { write_faults self.new ≡ write_faults self.old };

    /// Adds the reader's faults, and its reads unless no memory was found for them.
    fn give_back(&mut self, alloc: Global, reader: Self::R) -> Result<(), NoMemory>
        ensures faults { read_faults self.new ≡ sum_of_counts (read_faults self.old) (Self.R.faults reader) }
        ensures never_falls { read_faults self.old ≤ read_faults self.new }
        ensures reads { reads self.new ≡ (if is_ok result then joined_reads (reads self.old) (Self.R.reads reader) else reads self.old) }
        ensures lent { lent self.new ≡ lent self.old - 1 }
        ensures files { files self.new ≡ files self.old }
        ensures write_faults { write_faults self.new ≡ write_faults self.old };

    /// Makes the named file empty.
    fn create(&mut self, alloc: Global, name: &str) -> Result<(), FolderError>
        ensures ok { OnOk result (files self.new ≡ written (files self.old) name.now []) }
        ensures err { IfErr result (λ error. CreateLeaves error (files self.old) (files self.new) name.now) }
        ensures cause { HasCause FolderError.Failed (write_faults self.old) (write_faults self.new) result }
        ensures still { IsStill (write_faults self.old) (write_faults self.new) result }
        ensures lent { lent self.new ≡ lent self.old }
        ensures reads { reads self.new ≡ reads self.old }
        ensures read_faults { read_faults self.new ≡ read_faults self.old };

    /// Adds the piece at the end of the named file.
    fn append(&mut self, alloc: Global, name: &str, piece: &[u8]) -> Result<(), FolderError>
        requires { Has (files self.old) name.now }
        ensures ok { OnOk result (files self.new ≡ appended (files self.old) name.now piece.now) }
        ensures err { IfErr result (λ error. AppendLeaves error (files self.old) (files self.new) name.now piece.now) }
        ensures cause { HasCause FolderError.Failed (write_faults self.old) (write_faults self.new) result }
        ensures still { IsStill (write_faults self.old) (write_faults self.new) result }
        ensures lent { lent self.new ≡ lent self.old }
        ensures reads { reads self.new ≡ reads self.old }
        ensures read_faults { read_faults self.new ≡ read_faults self.old };
}
