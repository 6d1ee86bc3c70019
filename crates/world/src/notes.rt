// What is said to whoever started the run.
ghost use Rattle.std.specs.Prelude.{◌≡◌, ℕ, List, Option, take, OnOk, OnErr};
ghost use Rattle.world.specs.Counts.{HasAnyCause};
ghost use Rattle.world.specs.Notes.{said};

use crate::NotesError;
use std::alloc::Global;

/// Notes: a text that grows.
pub trait Notes {
    /// The text that was said so far, where it is told.
    ghost text: { Self → Option (List ℕ) };

    /// How often a piece wasn't said whole.
    ghost failures: { Self → ℕ };

    /// Says the piece. After an error a prefix of it was said.
    fn say(&mut self, alloc: Global, piece: &[u8]) -> Result<(), NotesError>
        ensures ok { OnOk result (text self.new ≡ said (text self.old) piece.now) }
        ensures err { OnErr result ((k : ℕ) × (text self.new ≡ said (text self.old) (take k piece.now))) }
        ensures cause { HasAnyCause (failures self.old) (failures self.new) result }
        ensures still { OnOk result (failures self.new ≡ failures self.old) };
}
