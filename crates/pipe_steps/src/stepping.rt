// One step over a piece.
ghost use Rattle.std.specs.Prelude.{◌≡◌, ◌∷◌, [], IfOk, None, length};
ghost use Rattle.batch.specs.BatchRows.{stream_of_piece, types_of};
ghost use Rattle.plan_pipes.specs.Run.{stepped};
ghost use Rattle.plan_pipes.specs.Pieces.{AgreeIn, marks_in, merged, piece_steps, table_at};
ghost use Rattle.pipe_types.specs.Exact.{exact_steps};
ghost use Rattle.pipe_types.specs.Over.{IsStepOver};
ghost use Rattle.pipe_steps.specs.Marked.{rows_at};
ghost use Rattle.pipe_steps.specs.Ready.{IsFit, IsReady};
ghost use Rattle.pipe_steps.specs.Tables.{joins_of, tables_seen};

use crate::built::BuiltTable;
use crate::probing::probe;
use crate::reading::read;
use batch::Piece;
use hash_join::Marks;
use plan_pipes::Step;
use row_ops::{filter, keep, project};
use std::alloc::Global;
use sub_types::NoMemory;

/// What a step gives for a piece. A join marks the right rows that it matches.
pub(crate) fn step_over(
    alloc: Global,
    step: &Step,
    tables: &[BuiltTable],
    marks: &mut Marks,
    piece: Piece,
) -> Result<Piece, NoMemory>
    requires over { IsStepOver (joins_of tables.now) (types_of piece.batch) step.now }
    requires ready { IsReady (step.now ∷ []) piece.batch }
    requires marks { length marks.old ≡ rows_at (table_at (tables_seen tables.now) step.now) }
    ensures stream { IfOk result (λ out. stream_of_piece out ≡ stepped piece_steps (tables_seen tables.now) step.now (stream_of_piece piece)) }
    ensures types { IfOk result (λ out. types_of out.batch ≡ stepped exact_steps (joins_of tables.now) step.now (types_of piece.batch)) }
    ensures fit { IfOk result (λ out. IsFit out.batch) }
    ensures marked { IfOk result (λ out. out.end ≡ None → AgreeIn (table_at (tables_seen tables.now) step.now) (merged marks.old (marks_in (table_at (tables_seen tables.now) step.now) (stream_of_piece piece ∷ []))) marks.new) }
    ensures rows { length marks.new ≡ length marks.old }
{
    match step {
        Step::Read {
            relation,
            types,
            filter,
            mask,
            ..
        } => read(
            alloc,
            *relation,
            types.as_slice(),
            filter,
            mask.as_slice(),
            piece,
        ),
        Step::Filter {
            relation,
            condition,
        } => filter(alloc, condition, *relation, piece),
        Step::Project { relation, exprs } => project(alloc, exprs.as_slice(), *relation, piece),
        Step::Keep(columns) => keep(alloc, columns.as_slice(), piece),
        Step::Probe { built } => probe(alloc, &tables[*built as usize], marks, piece),
    }
}
