// Notes in memory.
ghost use Rattle.std.specs.Prelude.{◌≡◌, ◌≢◌, ℕ, [], Some, take, OnOk, OnErr};
ghost use Rattle.world.specs.Counts.{HasAnyCause};
ghost use Rattle.world.specs.Notes.{said};

use crate::{Notes, NotesError};
use std::alloc::Global;
use std::marker::Model;

/// Notes in memory. They never fail, but for want of memory.
#[derive(Drop)]
pub struct MemNotes {
    text: Vec<u8>,
    failures: u64,
}

impl Model for MemNotes {
    ghost use Rattle.world.specs.Told.{Noted};

    ghost Value = { Noted };

    ghost view = { λ notes. record { text = notes.text.items; failures = notes.failures } };
}

impl MemNotes {
    /// Nothing was said.
    pub fn new(alloc: Global) -> MemNotes
        ensures { result ≡ record { text = []; failures = 0 } }
    {
        MemNotes {
            text: Vec::new(alloc),
            failures: 0,
        }
    }

    /// What was said so far.
    pub fn text(&self) -> &[u8]
        ensures { result.now ≡ self.now.text }
    {
        &self.text
    }
}

#[tactic(auto, unfolding(crate::specs::Notes::said))]
impl Notes for MemNotes {
    ghost text = { λ notes. Some notes.text };

    ghost failures = { λ notes. notes.failures };

    fn say(&mut self, _alloc: Global, piece: &[u8]) -> Result<(), NotesError>
        ensures ok { OnOk result (Some self.new.text ≡ said (Some self.old.text) piece.now) }
        ensures err { OnErr result ((k : ℕ) × (Some self.new.text ≡ said (Some self.old.text) (take k piece.now))) }
        ensures cause { HasAnyCause self.old.failures self.new.failures result }
        ensures still { OnOk result (self.new.failures ≡ self.old.failures) }
        ensures never_fails { result ≢ Err NotesError.Failed }
    {
        if self.text.extend_from_slice(piece).is_err() {
            self.failures = self.failures.saturating_add(1);
            return Err(NotesError::NoMemory);
        }
        Ok(())
    }
}
