// What comes through steps behind rows that stand in the plan.
ghost use Rattle.std.specs.Prelude.{◌≡◌, ◌∷◌, [], IfOk, OnOk, map};
ghost use Rattle.plan_typed.specs.declared.rel.Source.TheVariants as sources;
ghost use Rattle.well_typed.specs.WellTyped.{IsSourceOf};
ghost use Rattle.plan_denote.specs.Eval.{eval};
ghost use Rattle.plan_denote.specs.Read.{virtual_rows};
ghost use Rattle.plan_pipes.specs.Run.{through};
ghost use Rattle.plan_pipes.specs.RowMeaning.{row_steps};
ghost use Rattle.pipe_types.specs.Exact.{exact_steps};
ghost use Rattle.pipe_types.specs.Over.{AreStepsOver, IsBreakerOver};
ghost use Rattle.pipe_steps.specs.Tables.{joins_of, tables_seen};
ghost use Rattle.read_rounds.specs.Given.{ArePartsOf};
ghost use Rattle.open_blocks.specs.Taken.{Adds};
ghost use Rattle.pipe_flows.specs.Receipts.{IsReceiptOf, batches_from};

use crate::counted::pass_counted;
use crate::flowed::Flowed;
use pipe_feeds::{Through, feed_virtual};
use pipe_steps::BuiltTable;
use plan_leaves::Items;
use plan_pipes::{Breaker, Step};
use plan_typed::Expr;
use read_rounds::{Crew, PipeSteps};
use run_words::PipeReceipt;
use std::alloc::Global;
use std::sync::Wait;
use std::thread::Threads;
use sub_types::{NoMemory, Ty};
use world::Gate;

/// What is kept for a breaker of what comes through the steps behind rows that stand in the plan, of which the first reads them.
pub(crate) fn flow_virtual<H: Threads + Wait + Sync, G: Gate>(
    crew: &Crew<'_, H, G>,
    alloc: Global,
    relation: u32,
    rows: &[Items<Expr>],
    types: &[Ty],
    steps: &[Step],
    breaker: &Breaker,
    tables: &[BuiltTable],
    receipts: &mut Vec<PipeReceipt>,
) -> Result<Flowed, NoMemory>
    requires over { AreStepsOver (joins_of tables.now) types.now steps.now }
    requires breaker { IsBreakerOver (through exact_steps (joins_of tables.now) steps.now types.now) breaker.now }
    requires source { IsSourceOf types.now (sources.Rows rows.now) }
    ensures stored { IfOk result (λ given. given.types.items ≡ through exact_steps (joins_of tables.now) steps.now types.now) }
    ensures parts { IfOk result (λ given. ArePartsOf breaker.now given.types.items (through row_steps (tables_seen tables.now) steps.now (virtual_rows relation (map (map eval) rows.now))) given.parts.items) }
    ensures receipts { OnOk result (Adds (IsReceiptOf crew.now.workers) ((relation, batches_from [] relation (sources.Rows rows.now)) ∷ []) receipts.old.items receipts.new.items) }
{
    let fed = feed_virtual(alloc, relation, rows, types, steps, tables)?;
    let Through {
        pieces,
        types: columns,
    } = fed;
    let pipe = PipeSteps::new(&steps[1..], tables, &columns, breaker);
    let given = pass_counted(crew, alloc, &pipe, relation, pieces, receipts)?;
    Ok(given)
}
