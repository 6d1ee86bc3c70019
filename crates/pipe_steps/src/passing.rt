// A piece through all steps.
ghost use Rattle.std.specs.Prelude.{◌≡◌, ◌∷◌, [], IfOk, None};
ghost use Rattle.batch.specs.BatchRows.{stream_of_piece, types_of};
ghost use Rattle.plan_pipes.specs.Run.{through};
ghost use Rattle.plan_pipes.specs.Pieces.{Agree, marks_through, merged_each, piece_through};
ghost use Rattle.pipe_types.specs.Exact.{exact_steps};
ghost use Rattle.pipe_types.specs.Over.{AreStepsOver};
ghost use Rattle.pipe_steps.specs.Marked.{HaveMarks};
ghost use Rattle.pipe_steps.specs.Ready.{IsFit, IsReady};
ghost use Rattle.pipe_steps.specs.Tables.{joins_of, tables_seen};

use crate::built::BuiltTable;
use crate::stepping::step_over;
use batch::Piece;
use hash_join::Marks;
use plan_pipes::Step;
use std::alloc::Global;
use sub_types::NoMemory;

/// What the steps give for a piece by itself, without the right rows that joins give last. Each join marks, in the marks of its step,
/// the right rows that it matched. Where the piece ends in a fault, what is marked isn't told.
pub fn pass(
    alloc: Global,
    steps: &[Step],
    tables: &[BuiltTable],
    marks: &mut [Marks],
    piece: Piece,
) -> Result<Piece, NoMemory>
    requires over { AreStepsOver (joins_of tables.now) (types_of piece.batch) steps.now }
    requires ready { IsReady steps.now piece.batch }
    requires marks { HaveMarks (tables_seen tables.now) steps.now marks.old }
    ensures stream { IfOk result (λ out. stream_of_piece out ≡ piece_through (tables_seen tables.now) steps.now (stream_of_piece piece)) }
    ensures types { IfOk result (λ out. types_of out.batch ≡ through exact_steps (joins_of tables.now) steps.now (types_of piece.batch)) }
    ensures fit { IfOk result (λ out. IsFit out.batch) }
    ensures marked { IfOk result (λ out. out.end ≡ None
        → Agree (tables_seen tables.now) steps.now (merged_each marks.old (marks_through (tables_seen tables.now) steps.now (stream_of_piece piece ∷ []))) marks.new) }
    ensures rows { HaveMarks (tables_seen tables.now) steps.now marks.new }
{
    let mut piece = piece;
    for at in 0..steps.len() {
        let passed = step_over(alloc, &steps[at], tables, &mut marks[at], piece)?;
        piece = passed;
    }
    Ok(piece)
}
