// All pieces of an input.
ghost use Rattle.std.specs.Prelude.{◌≡◌, [], All, IfOk, map};
ghost use Rattle.sub_types.specs.Stream.{glue};
ghost use Rattle.batch.specs.BatchRows.{stream_of_piece, types_of};
ghost use Rattle.plan_pipes.specs.Run.{through};
ghost use Rattle.plan_pipes.specs.RowMeaning.{row_steps};
ghost use Rattle.plan_pipes.specs.Pieces.{marks_through};
ghost use Rattle.pipe_types.specs.Exact.{exact_steps};
ghost use Rattle.pipe_types.specs.Over.{AreStepsOver};
ghost use Rattle.pipe_steps.specs.Behind.{IsStored};
ghost use Rattle.pipe_steps.specs.Marked.{HaveMarks};
ghost use Rattle.pipe_steps.specs.Ready.{IsFit, IsReady};
ghost use Rattle.pipe_steps.specs.Tables.{joins_of, tables_seen};

use crate::built::BuiltTable;
use crate::finishing::finish;
use crate::marking::marks_of;
use crate::passing::pass;
use batch::Piece;
use hash_join::Marks;
use plan_pipes::Step;
use std::alloc::Global;
use sub_types::{NoMemory, Ty};

/// What the steps give over the pieces of an input whose columns have these types, up to the first fault.
pub fn run_steps(
    alloc: Global,
    steps: &[Step],
    tables: &[BuiltTable],
    types: &[Ty],
    input: Vec<Piece>,
) -> Result<Vec<Piece>, NoMemory>
    requires over { AreStepsOver (joins_of tables.now) types.now steps.now }
    requires typed { All (λ piece. types_of piece.batch ≡ types.now) input.items }
    requires ready { All (λ piece. IsReady steps.now piece.batch) input.items }
    ensures stream { IfOk result (λ out. glue (map stream_of_piece out.items) ≡ through row_steps (tables_seen tables.now) steps.now (glue (map stream_of_piece input.items))) }
    ensures typed { IfOk result (λ out. All (λ piece. types_of piece.batch ≡ through exact_steps (joins_of tables.now) steps.now types.now) out.items) }
    ensures fit { IfOk result (λ out. All (λ piece. IsFit piece.batch) out.items) }
{
    let mut marks = marks_of(alloc, steps, tables)?;
    let out = run_over(alloc, steps, tables, types, input, &mut marks)?;
    Ok(out)
}

// The same with marks of which none is set.
fn run_over(
    alloc: Global,
    steps: &[Step],
    tables: &[BuiltTable],
    types: &[Ty],
    input: Vec<Piece>,
    marks: &mut [Marks],
) -> Result<Vec<Piece>, NoMemory>
    requires over { AreStepsOver (joins_of tables.now) types.now steps.now }
    requires typed { All (λ piece. types_of piece.batch ≡ types.now) input.items }
    requires ready { All (λ piece. IsReady steps.now piece.batch) input.items }
    requires none { marks.old ≡ marks_through (tables_seen tables.now) steps.now [] }
    requires rows { HaveMarks (tables_seen tables.now) steps.now marks.old }
    ensures stream { IfOk result (λ out. glue (map stream_of_piece out.items) ≡ through row_steps (tables_seen tables.now) steps.now (glue (map stream_of_piece input.items))) }
    ensures pieces { IfOk result (λ out. All (IsStored (through exact_steps (joins_of tables.now) steps.now types.now)) out.items) }
{
    let mut out = Vec::with_capacity(alloc, input.len())?;
    for piece in input {
        let passed = pass(alloc, steps, tables, marks, piece)?;
        let ended = passed.end.is_some();
        out.push(passed)?;
        if ended {
            return Ok(out);
        }
    }
    let mut last = finish(alloc, steps, tables, types, marks)?;
    out.append(&mut last)?;
    Ok(out)
}
