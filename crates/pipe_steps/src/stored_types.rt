// The types that the columns of what steps give are stored with.
ghost use Rattle.std.specs.Prelude.{◌≡◌, ◌++◌, IfOk, OnOk, None, map, slice_get, slice_index_or};
ghost use Rattle.well_typed.specs.Columns as spec;
ghost use Rattle.plan_typed.specs.Types.{ty_of};
ghost use Rattle.plan_pipes.specs.Run.{stepped, through};
ghost use Rattle.pipe_types.specs.Exact.{exact_steps, probed_types};
ghost use Rattle.pipe_steps.specs.Tables.{joins_of};

use crate::built::BuiltTable;
use plan_pipes::Step;
use plan_typed::{Expr, JoinKind};
use std::alloc::{AllocError, Global};
use sub_types::{NoMemory, Ty};

/// The types of the columns that the steps give, over columns of these types.
pub fn types_through(
    alloc: Global,
    steps: &[Step],
    tables: &[BuiltTable],
    types: &[Ty],
) -> Result<Vec<Ty>, NoMemory>
    ensures { IfOk result (λ stored. stored.items ≡ through exact_steps (joins_of tables.now) steps.now types.now) }
{
    let mut stored = copied(alloc, types)?;
    for step in steps {
        stored = types_over(alloc, step, tables, &stored)?;
    }
    Ok(stored)
}

/// The same of one step.
pub(crate) fn types_over(
    alloc: Global,
    step: &Step,
    tables: &[BuiltTable],
    given: &[Ty],
) -> Result<Vec<Ty>, NoMemory>
    ensures { IfOk result (λ stored. stored.items ≡ stepped exact_steps (joins_of tables.now) step.now given.now) }
{
    match step {
        Step::Read { types, mask, .. } => columns_at(alloc, types.as_slice(), mask.as_slice()),
        Step::Filter { .. } => copied(alloc, given),
        Step::Project { exprs, .. } => with_exprs(alloc, given, exprs.as_slice()),
        Step::Keep(columns) => columns_at(alloc, given, columns.as_slice()),
        Step::Probe { built } => probed_at(alloc, tables, *built as usize, given),
    }
}

/// The same types.
pub(crate) fn copied(alloc: Global, types: &[Ty]) -> Result<Vec<Ty>, NoMemory>
    ensures { IfOk result (λ copy. copy.items ≡ types.now) }
{
    let copy = Vec::from_slice(alloc, types)?;
    Ok(copy)
}

// The columns at these places.
fn columns_at(alloc: Global, types: &[Ty], places: &[u32]) -> Result<Vec<Ty>, NoMemory>
    ensures { IfOk result (λ found. found.items ≡ spec.columns_at types.now places.now) }
{
    let found = found_at(alloc, types, places)?;
    Ok(found)
}

fn found_at(alloc: Global, types: &[Ty], places: &[u32]) -> Result<Vec<Ty>, AllocError>
    ensures { IfOk result (λ found. found.items ≡ spec.columns_at types.now places.now) }
{
    places
        .iter()
        .filter_map(|place| column_at(types, *place))
        .collect(alloc)
}

fn column_at(types: &[Ty], place: u32) -> Option<Ty>
    ensures { result ≡ slice_get types.now place }
{
    types.get(place as usize).copied()
}

// The types of the expressions behind these.
fn with_exprs(alloc: Global, given: &[Ty], exprs: &[Expr]) -> Result<Vec<Ty>, NoMemory>
    ensures { IfOk result (λ types. types.items ≡ given.now ++ map ty_of exprs.now) }
{
    let mut types = copied(alloc, given)?;
    for expr in exprs {
        types.push(expr.ty())?;
    }
    Ok(types)
}

// The types of a join with a table, if there is one.
fn probed_at(
    alloc: Global,
    tables: &[BuiltTable],
    built: usize,
    given: &[Ty],
) -> Result<Vec<Ty>, NoMemory>
    ensures { IfOk result (λ types. types.items ≡ probed_types (slice_index_or (joins_of tables.now) built None) given.now) }
{
    if built < tables.len() {
        probed(alloc, &tables[built], given)
    } else {
        copied(alloc, given)
    }
}

/// The types of a join of left rows of these types with a table.
pub(crate) fn probed(alloc: Global, table: &BuiltTable, given: &[Ty]) -> Result<Vec<Ty>, NoMemory>
    ensures { IfOk result (λ types. types.items ≡ spec.join_columns table.now.table.spec.kind given.now table.now.table.spec.right.items) }
{
    let join = table.table.join();
    join_columns(alloc, join.kind, given, &join.right)
}

fn join_columns(
    alloc: Global,
    kind: JoinKind,
    left: &[Ty],
    right: &[Ty],
) -> Result<Vec<Ty>, NoMemory>
    ensures { IfOk result (λ columns. columns.items ≡ spec.join_columns kind left.now right.now) }
{
    let mut columns = Vec::new(alloc);
    match kind {
        JoinKind::Inner => {
            add(&mut columns, left)?;
            add(&mut columns, right)?;
        }
        JoinKind::Outer => {
            add_nullable(&mut columns, left)?;
            add_nullable(&mut columns, right)?;
        }
        JoinKind::Left => {
            add(&mut columns, left)?;
            add_nullable(&mut columns, right)?;
        }
        JoinKind::Right => {
            add_nullable(&mut columns, left)?;
            add(&mut columns, right)?;
        }
        JoinKind::LeftSemi | JoinKind::LeftAnti => add(&mut columns, left)?,
    }
    Ok(columns)
}

fn add(columns: &mut Vec<Ty>, more: &[Ty]) -> Result<(), NoMemory>
    ensures { OnOk result (columns.new.items ≡ columns.old.items ++ more.now) }
{
    for column in more {
        columns.push(*column)?;
    }
    Ok(())
}

fn add_nullable(columns: &mut Vec<Ty>, more: &[Ty]) -> Result<(), NoMemory>
    ensures { OnOk result (columns.new.items ≡ columns.old.items ++ spec.nullable more.now) }
{
    for column in more {
        columns.push(Ty {
            kind: column.kind,
            nullable: true,
        })?;
    }
    Ok(())
}
