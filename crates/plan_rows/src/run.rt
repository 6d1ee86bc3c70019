// The rows of a plan with subqueries.
ghost use Rattle.std.specs.Prelude.{◌≡◌, [], IfOk};
ghost use Rattle.plan_denote.specs.Denote.{denote};
ghost use Rattle.plan_denote.specs.Subqueries.{denote_plan, filled, worth_of_stream, worths};
ghost use Rattle.plan_rows.specs.Seen.{all_seen};
ghost use Rattle.row_engine.specs.Tables.{tables_seen};
ghost use Rattle.row_steps.specs.Seen.{seen};
ghost use Rattle.sub_query.specs.Known.{found_seen, known_seen};

use plan_typed::{Holed, Rel, Sub};
use row_engine::{RowStream, Table, run_rows};
use row_steps::ended;
use std::alloc::Global;
use sub_query::{KnownWorth, Worth, filled_rel, worth_of_rows};
use sub_types::{Fault, NoMemory};

/// The rows of a checked plan and the fault that ends them, over the tables of its read relations, those of its subqueries among
/// them. Each subquery is run once, after the values of the earlier ones were put in; the first fault of one is the plan's.
pub fn run_plan(alloc: Global, plan: &Holed, tables: &[Table]) -> Result<RowStream, NoMemory>
    ensures { IfOk result (λ s. seen s ≡ denote_plan (tables_seen tables.now) plan.now) }
{
    match worths_of(alloc, plan.subs.as_slice(), tables)? {
        Ok(known) => rows_filled(alloc, &plan.typed.rel, &known, tables),
        Err(fault) => Ok(ended(alloc, Some(fault))),
    }
}

/// What the subqueries are worth, or the first fault.
fn worths_of(
    alloc: Global,
    subs: &[Sub],
    tables: &[Table],
) -> Result<Result<Vec<KnownWorth>, Fault>, NoMemory>
    ensures { IfOk result (λ found. all_seen found ≡ worths (tables_seen tables.now) subs.now []) }
{
    let mut known = Vec::new(alloc);
    for sub in subs {
        match worth_of_sub(alloc, sub, &known, tables)? {
            Ok(worth) => known.push(KnownWorth {
                hole: sub.hole,
                worth,
            })?,
            Err(fault) => return Ok(Err(fault)),
        }
    }
    Ok(Ok(known))
}

/// What a subquery is worth once the values of the earlier ones are put in, or its fault.
fn worth_of_sub(
    alloc: Global,
    sub: &Sub,
    known: &[KnownWorth],
    tables: &[Table],
) -> Result<Result<Worth, Fault>, NoMemory>
    ensures { IfOk result (λ found. found_seen found ≡ worth_of_stream sub.now (denote (tables_seen tables.now) (filled (known_seen known.now) sub.now.rel))) }
{
    let rows = rows_filled(alloc, &sub.rel, known, tables)?;
    if let Some(fault) = rows.end {
        return Ok(Err(fault));
    }
    worth_of_rows(alloc, sub, rows.rows.as_slice())
}

/// The rows of a relation with what is known put in.
fn rows_filled(
    alloc: Global,
    rel: &Rel,
    known: &[KnownWorth],
    tables: &[Table],
) -> Result<RowStream, NoMemory>
    ensures { IfOk result (λ s. seen s ≡ denote (tables_seen tables.now) (filled (known_seen known.now) rel.now)) }
{
    let filled = filled_rel(alloc, rel, known)?;
    run_rows(alloc, &filled, tables)
}
