// What was made of the pieces, put together in order.
ghost use Rattle.std.specs.Prelude.{◌≡◌, [], All, Err, IfOk, List, None, map};
ghost use Rattle.sub_types.specs.Stream.{Stream, glue};
ghost use Rattle.plan_denote.specs.Rows.{Row};
ghost use Rattle.plan_pipes.specs.Pieces.{marks_through};
ghost use Rattle.plan_pipes.specs.Run.{through};
ghost use Rattle.plan_pipes.specs.RowMeaning.{row_steps};
ghost use Rattle.pipe_types.specs.Exact.{exact_steps};
ghost use Rattle.pipe_steps.specs.Marked.{HaveMarks};
ghost use Rattle.pipe_steps.specs.Tables.{joins_of, tables_seen};
ghost use Rattle.pipe_work.specs.Kept.{ArePartsOf};
ghost use Rattle.round_end.specs.Decided.{decided, settled_seen};
ghost use Rattle.pipe_round.specs.Settled.{AreSettled, HavePut, HasMarks};

use crate::merging::add_kept;
use hash_join::Marks;
use pipe_labour::Item;
use pipe_work::{Kept, Part, PipeSteps};
use round_end::{Outcome, Settled, settle};
use std::alloc::Global;
use sub_types::NoMemory;
use world::FolderError;

/// What is kept for the pipeline's breaker of what the steps give over the pieces of an input, by what was made of each piece in order:
/// up to the first fault, or a failed read where one stands before it.
pub fn settle_pieces(
    alloc: Global,
    pipe: &PipeSteps,
    outs: Vec<Item<Outcome<Kept>>>,
) -> Result<Vec<Part>, FolderError>
    requires marks { All (λ out. HasMarks pipe.now out.value) outs.items }
    ensures parts { IfOk result (λ parts. (input : List (Stream Row)) → AreSettled pipe.now input (map (λ out. out.value) outs.items)
        → ArePartsOf pipe.now.breaker (through exact_steps (joins_of pipe.now.tables) pipe.now.steps pipe.now.types)
        (through row_steps (tables_seen pipe.now.tables) pipe.now.steps (glue input)) parts.items) }
    ensures failed { result ≡ Err FolderError.Failed → decided (map (λ out. out.value) outs.items) ≡ None }
{
    let settled = settle(alloc, outs)?;
    let parts = put_together(alloc, pipe, settled)?;
    Ok(parts)
}

// The parts of the pieces that count, and behind them those of the right rows that none matched, where none has a fault.
fn put_together(
    alloc: Global,
    pipe: &PipeSteps,
    settled: Settled<Kept>,
) -> Result<Vec<Part>, NoMemory>
    requires marks { All (λ one. HaveMarks (tables_seen pipe.now.tables) pipe.now.steps one.marks.items) settled.made.items }
    ensures { IfOk result (λ parts. (input : List (Stream Row)) → HavePut pipe.now input settled.made.items settled.end
        → ArePartsOf pipe.now.breaker (through exact_steps (joins_of pipe.now.tables) pipe.now.steps pipe.now.types)
        (through row_steps (tables_seen pipe.now.tables) pipe.now.steps (glue input)) parts.items) }
{
    let mut marks = pipe.no_marks(alloc)?;
    let parts = put_over(alloc, pipe, settled, &mut marks)?;
    Ok(parts)
}

// The same with marks of which none is set.
fn put_over(
    alloc: Global,
    pipe: &PipeSteps,
    settled: Settled<Kept>,
    marks: &mut [Marks],
) -> Result<Vec<Part>, NoMemory>
    requires none { marks.old ≡ marks_through (tables_seen pipe.now.tables) pipe.now.steps [] }
    requires rows { HaveMarks (tables_seen pipe.now.tables) pipe.now.steps marks.old }
    requires marks { All (λ one. HaveMarks (tables_seen pipe.now.tables) pipe.now.steps one.marks.items) settled.made.items }
    ensures { IfOk result (λ parts. (input : List (Stream Row)) → HavePut pipe.now input settled.made.items settled.end
        → ArePartsOf pipe.now.breaker (through exact_steps (joins_of pipe.now.tables) pipe.now.steps pipe.now.types)
        (through row_steps (tables_seen pipe.now.tables) pipe.now.steps (glue input)) parts.items) }
{
    let Settled { made, end } = settled;
    let mut out = Vec::with_capacity(alloc, made.len())?;
    add_kept(made, marks, &mut out)?;
    if end.is_some() {
        return Ok(out);
    }
    let mut last = pipe.last_parts(alloc, marks)?;
    out.append(&mut last)?;
    Ok(out)
}
