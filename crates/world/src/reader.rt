// A reader of one file, which may be read at any place.
ghost use Rattle.std.specs.Prelude.{◌≡◌, ◌≢◌, ◌+◌, ◌≤◌, ℕ, List, Option, length, take, drop, if◌then◌else◌, is_ok, IfOk, OnOk, IfSome};
ghost use Rattle.std.specs.Option.{ForSome};
ghost use Rattle.world.specs.Counts.{HasCause, IsStill, sum_of_counts};
ghost use Rattle.world.specs.Reads.{Reads, reads_after, joined_reads, IsFresh};

use crate::FolderError;
use std::alloc::Global;
use sub_types::NoMemory;

/// A reader of one file. It tells the file's bytes and its own reads, or neither.
pub trait Reader: Sized + Drop {
    /// The bytes of the file, where they are told.
    ghost bytes: { Self → Option (List ℕ) };

    /// The pairs (place, length) that `read_at` was asked for, where they are told.
    ghost reads: { Self → Option Reads };

    /// How often a call failed.
    ghost faults: { Self → ℕ };

    /// The length of the file in bytes.
    fn len(&mut self) -> Result<u64, FolderError>
        ensures len { IfOk result (λ len. IfSome (bytes self.old) (λ told. len ≡ length told)) }
        ensures memory { result ≢ Err FolderError.NoMemory }
        ensures cause { HasCause FolderError.Failed (faults self.old) (faults self.new) result }
        ensures still { IsStill (faults self.old) (faults self.new) result }
        ensures bytes { bytes self.new ≡ bytes self.old }
        ensures reads { reads self.new ≡ reads self.old };

    /// Reads the bytes from the place `at` on, as many as `into` has.
    fn read_at(&mut self, alloc: Global, at: u64, into: &mut [u8]) -> Result<(), FolderError>
        requires { ForSome (bytes self.old) (λ told. at + length into.old ≤ length told) }
        ensures read { OnOk result (IfSome (bytes self.old) (λ told. into.new ≡ take (length into.old) (drop at told))) }
        ensures reads { reads self.new ≡ reads_after result (reads self.old) at (length into.old) }
        ensures cause { HasCause FolderError.Failed (faults self.old) (faults self.new) result }
        ensures still { IsStill (faults self.old) (faults self.new) result }
        ensures bytes { bytes self.new ≡ bytes self.old };

    /// A second reader of the same bytes.
    fn again(&mut self, alloc: Global) -> Result<Self, FolderError>
        ensures same { IfOk result (λ second. bytes second ≡ bytes self.old) }
        ensures fresh { IfOk result (λ second. IsFresh (faults second) (reads second)) }
        ensures cause { HasCause FolderError.Failed (faults self.old) (faults self.new) result }
        ensures still { IsStill (faults self.old) (faults self.new) result }
        ensures bytes { bytes self.new ≡ bytes self.old }
        ensures reads { reads self.new ≡ reads self.old };

    /// Adds the other's faults, and its reads unless no memory was found for them.
    fn absorb(&mut self, alloc: Global, other: Self) -> Result<(), NoMemory>
        ensures faults { faults self.new ≡ sum_of_counts (faults self.old) (faults other) }
        ensures never_falls { faults self.old ≤ faults self.new }
        ensures reads { reads self.new ≡ (if is_ok result then joined_reads (reads self.old) (reads other) else reads self.old) }
        ensures bytes { bytes self.new ≡ bytes self.old };
}
