// The rows that a set operation takes.
ghost use Rattle.std.specs.Prelude.{◌≡◌, ◌≤◌, ℕ, false, IfOk};
ghost use Rattle.hash_chains.specs.Chained.{IsChained, IsNumbered};
ghost use Rattle.hash_chains.specs.First.{rows_where};
ghost use Rattle.set_places.specs.Taken.{AreEnds, takes};

use crate::marks::{mark_alike, open_marks, rows_taken};
use hash_chains::{Chains, Keys};
use plan_typed::SetOp;
use std::alloc::Global;
use sub_types::NoMemory;

/// The rows of the first input that a set operation takes, in rising order. The first input has so many rows, and `others` says
/// where each other input ends; for UNION_DISTINCT all inputs count as the first. No key is null here: null equals null.
pub fn taken_rows<K: Keys>(
    alloc: Global,
    op: SetOp,
    chains: &Chains<K>,
    numbers: &[u64],
    first: u64,
    others: &[u64],
) -> Result<Vec<u64>, NoMemory>
    requires chained { IsChained K.count K.is_null K.number K.same chains.now }
    requires numbered { IsNumbered K.count K.number chains.now chains.now.keys numbers.now }
    requires alike { K.Alike chains.now.keys chains.now.keys }
    requires whole { (row : ℕ) → K.is_null chains.now.keys row ≡ false }
    requires first { first ≤ K.count chains.now.keys }
    requires ends { AreEnds first others.now (K.count chains.now.keys) }
    ensures { IfOk result (λ rows. rows.items ≡ rows_where (takes (K.same chains.now.keys chains.now.keys) op first others.now) first) }
{
    let mut marks = open_marks(alloc, first as usize)?;
    let mut alike = Vec::new(alloc);
    for row in 0..first {
        if marks[row as usize].is_open() {
            alike.clear();
            chains.matches(chains.keys(), numbers, row as usize, &mut alike)?;
            mark_alike(op, &alike, first, others, &mut marks);
        }
    }
    rows_taken(alloc, &marks)
}
