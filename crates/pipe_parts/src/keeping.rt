// What is kept of a piece.
ghost use Rattle.std.specs.Prelude.{IfOk};
ghost use Rattle.batch.specs.BatchRows.{types_of};
ghost use Rattle.pipe_types.specs.Over.{IsBreakerOver};
ghost use Rattle.pipe_steps.specs.Ready.{IsFit};
ghost use Rattle.pipe_parts.specs.Parts.{IsPart};

use crate::grouping::{groups_of, sets_of};
use crate::part::Part;
use crate::sorting::run_of;
use crate::tables::built_of;
use batch::Piece;
use plan_pipes::Breaker;
use std::alloc::Global;
use sub_types::NoMemory;

/// What is kept of a piece for a breaker. Types of decimals that stand in no plan are `NoMemory` where they are to be grouped, and so are
/// more than 64 sets of groups: no checked plan has them.
pub fn part_of(alloc: Global, breaker: &Breaker, piece: Piece) -> Result<Part, NoMemory>
    requires over { IsBreakerOver (types_of piece.batch) breaker.now }
    requires fit { IsFit piece.batch }
    ensures { IfOk result (IsPart breaker.now piece) }
{
    match breaker {
        Breaker::Gather | Breaker::Fetch { .. } => Ok(Part::Rows(piece)),
        Breaker::Aggregate(spec) => groups_of(alloc, spec, piece),
        Breaker::GroupSets(spec) => sets_of(alloc, spec, piece),
        Breaker::Sort(keys) => run_of(alloc, keys.as_slice(), piece),
        Breaker::Build(join) => built_of(alloc, join, piece),
    }
}
