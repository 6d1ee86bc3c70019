// What is said goes to standard output.
ghost use Rattle.std.specs.Prelude.{None};

use std::alloc::Global;
use std::io::{self, Write};
use world::{Notes, NotesError};

/// Standard output.
#[derive(Drop)]
pub(crate) struct StdNotes<'a, P> {
    to: &'a P,
    failures: u64,
}

impl<'a, P: Print> StdNotes<'a, P> {
    pub(crate) fn new(to: &'a P) -> StdNotes<'a, P> {
        StdNotes { to, failures: 0 }
    }
}

#[tactic(auto, unfolding(world::specs::Notes::said))]
impl<P: Print> Notes for StdNotes<'_, P> {
    ghost text = { λ _. None };

    ghost failures = { λ notes. notes.failures };

    fn say(&mut self, _alloc: Global, piece: &[u8]) -> Result<(), NotesError> {
        if said(self.to, piece) {
            return Ok(());
        }
        self.failures = self.failures.saturating_add(1);
        Err(NotesError::Failed)
    }
}

// Whether the piece was said whole.
fn said<P: Print>(to: &P, piece: &[u8]) -> bool {
    io::writer(to).write_all(piece).is_ok()
}
