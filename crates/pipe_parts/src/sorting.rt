// Runs in order.
ghost use Rattle.std.specs.Prelude.{map, length, IfOk};
ghost use Rattle.well_typed.specs.WellTyped.{AreBelow};
ghost use Rattle.batch.specs.BatchRows.{types_of};
ghost use Rattle.plan_pipes.specs.declared.pipe.Breaker.TheVariants as breakers;
ghost use Rattle.pipe_parts.specs.Parts.{IsPart};

use crate::part::Part;
use batch::Piece;
use rel_specs::KeyOrder;
use sort_merge::sort_run;
use std::alloc::Global;
use sub_types::NoMemory;

/// The rows of a piece in order of these columns, and its end.
pub(crate) fn run_of(alloc: Global, keys: &[KeyOrder], piece: Piece) -> Result<Part, NoMemory>
    requires { AreBelow (length (types_of piece.batch)) (map (λ key. key.column) keys.now) }
    ensures { IfOk result (IsPart (breakers.Sort keys.now) piece) }
{
    let Piece { batch, end } = piece;
    let sorted = sort_run(alloc, keys, batch)?;
    Ok(Part::Rows(Piece { batch: sorted, end }))
}
