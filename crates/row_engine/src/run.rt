// The rows of a relation, by those of its inputs.
ghost use Rattle.std.specs.Prelude.{◌≡◌, length, map, IfOk};
ghost use Rattle.plan_typed.specs.Types.{columns_of};
ghost use Rattle.plan_denote.specs.Denote.{denote, direct, source_rows};
ghost use Rattle.row_steps.specs.Seen.{seen};
ghost use Rattle.row_engine.specs.Tables.{tables_seen};

use crate::tables::{Table, table_rows};
use plan_leaves::Items;
use plan_typed::{Op, Rel, Source};
use row_groups::{aggregated, grouping_sets};
use row_joins::{Widths, crossed, joined};
use row_sorts::{set_rows, sorted};
use row_steps::{
    RowStream, emitted, fetched, filtered, filtered_if, projected, read_rows, virtual_rows,
};
use std::alloc::Global;
use sub_types::NoMemory;

/// The rows of a checked relation, row by row as its definition goes, over the tables of its read relations.
#[cycle(run)]
pub fn run_rows(alloc: Global, rel: &Rel, tables: &[Table]) -> Result<RowStream, NoMemory>
    ensures { IfOk result (λ s. seen s ≡ denote (tables_seen tables.now) rel.now) }
{
    let direct = run_op(alloc, &rel.op, rel.number, tables)?;
    emitted(alloc, rel.emit.as_slice(), direct)
}

/// The rows of a relation of this number before it emits.
#[cycle(run)]
fn run_op(alloc: Global, op: &Op, number: u32, tables: &[Table]) -> Result<RowStream, NoMemory>
    ensures { IfOk result (λ s. seen s ≡ direct (tables_seen tables.now) op.now number) }
{
    match op {
        Op::Read {
            source,
            types,
            filter,
            mask,
            ..
        } => {
            let rows = rows_of_source(alloc, source, number, tables)?;
            read_rows(
                alloc,
                number,
                types.as_slice(),
                filter,
                mask.as_slice(),
                rows,
            )
        }
        Op::Filter { input, condition } => {
            let rows = run_rows(alloc, input.get(), tables)?;
            filtered(alloc, number, condition, rows)
        }
        Op::Project { input, exprs } => {
            let rows = run_rows(alloc, input.get(), tables)?;
            projected(alloc, number, exprs.as_slice(), rows)
        }
        Op::Fetch {
            input,
            offset,
            count,
        } => {
            let rows = run_rows(alloc, input.get(), tables)?;
            Ok(fetched(*offset, *count, rows))
        }
        Op::Sort { input, keys } => {
            let rows = run_rows(alloc, input.get(), tables)?;
            sorted(alloc, number, keys.as_slice(), rows)
        }
        Op::Aggregate {
            input,
            groups,
            measures,
        } => {
            let rows = run_rows(alloc, input.get(), tables)?;
            aggregated(alloc, number, groups.as_slice(), measures.as_slice(), rows)
        }
        Op::GroupSets {
            input,
            groups,
            sets,
            measures,
        } => {
            let rows = run_rows(alloc, input.get(), tables)?;
            grouping_sets(
                alloc,
                number,
                groups.as_slice(),
                sets.as_slice(),
                measures.as_slice(),
                rows,
            )
        }
        Op::Join {
            left,
            right,
            kind,
            on,
            post,
        } => {
            let lefts = run_rows(alloc, left.get(), tables)?;
            let rights = run_rows(alloc, right.get(), tables)?;
            let widths = widths_of(left.get(), right.get());
            let rows = joined(alloc, *kind, number, widths, on, lefts, rights)?;
            filtered_if(alloc, number, post, rows)
        }
        Op::Cross { left, right } => {
            let lefts = run_rows(alloc, left.get(), tables)?;
            let rights = run_rows(alloc, right.get(), tables)?;
            crossed(
                alloc,
                number,
                widths_of(left.get(), right.get()),
                lefts,
                rights,
            )
        }
        Op::Set { inputs, op } => {
            let streams = run_all(alloc, inputs.as_slice(), tables)?;
            set_rows(alloc, *op, streams)
        }
    }
}

/// The rows of each relation.
#[cycle(run)]
fn run_all(alloc: Global, rels: &[Rel], tables: &[Table]) -> Result<Items<RowStream>, NoMemory>
    ensures { IfOk result (λ streams. map seen streams ≡ map (denote (tables_seen tables.now)) rels.now) }
{
    let mut streams = Items::new(alloc);
    for rel in rels {
        streams.push(run_rows(alloc, rel, tables)?)?;
    }
    Ok(streams)
}

/// How many columns the inputs of a join have.
fn widths_of(left: &Rel, right: &Rel) -> Widths
    ensures left { result.left ≡ length (columns_of left.now) }
    ensures right { result.right ≡ length (columns_of right.now) }
{
    Widths {
        left: left.columns.len(),
        right: right.columns.len(),
    }
}

/// The rows of a source.
fn rows_of_source(
    alloc: Global,
    source: &Source,
    number: u32,
    tables: &[Table],
) -> Result<RowStream, NoMemory>
    ensures { IfOk result (λ s. seen s ≡ source_rows (tables_seen tables.now) number source.now) }
{
    match source {
        Source::Named(_) => table_rows(alloc, tables, number),
        Source::Rows(rows) => virtual_rows(alloc, number, rows.as_slice()),
    }
}
