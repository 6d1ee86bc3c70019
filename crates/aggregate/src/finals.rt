// The rows that an aggregate gives.
ghost use Rattle.std.specs.Prelude.{◌≡◌, ◌<◌, ◌≤◌, ◌++◌, length, map, slice_index_or, All, IfOk, [], Some, false};
ghost use Rattle.sub_types.specs.Stream.{Stream};
ghost use Rattle.plan_denote.specs.Aggregate as aggregate;
ghost use Rattle.plan_denote.specs.Aggregate.{Entry};
ghost use Rattle.group_columns.specs.Columns.{count_in};
ghost use Rattle.group_tallies.specs.Kept.{keeping_in, tallies_in};
ghost use Rattle.group_states.specs.States.{IsSound};
ghost use Rattle.aggregate.specs.Finals.{Makes, AreFinal, AreRows, finals_at, row_at};
ghost use Rattle.aggregate.specs.States.{Stands, keeping, is_lost_state};
ghost use Rattle.aggregate.specs.declared.state.State.TheVariants as states;

use crate::state::State;
use eval_values::EvalError;
use group_states::Groups;
use group_tallies::Tallies;
use plan_leaves::{CopyIn, Items};
use plan_typed::TypedMeasure;
use rel_specs::AggSpec;
use std::alloc::Global;
use sub_types::{Fault, FaultKind, NoMemory, Value};

/// Rows, and the fault that ends them, if there is one.
#[derive(Drop)]
pub(crate) struct Rows {
    pub(crate) rows: Vec<Items<Value>>,
    pub(crate) end: Option<Fault>,
}

/// The rows of all groups up to the first fault, or no rows and the fault that the rows so far have.
pub(crate) fn state_rows(alloc: Global, spec: &AggSpec, state: &State) -> Result<Rows, NoMemory>
    requires { Stands spec.now state.now }
    ensures rows { IfOk result (λ out. AreFinal spec.now state.now out) }
    ensures found { IfOk result (λ out. is_lost_state state.now ≡ false) }
{
    match state {
        State::Lost => Err(NoMemory),
        State::Ended(fault) => Ok(no_rows(alloc, *fault)),
        State::TooMany => Ok(no_rows(
            alloc,
            Fault {
                relation: spec.relation,
                kind: FaultKind::TooManyRows,
            },
        )),
        State::Known(groups) => {
            let rows = group_rows(alloc, spec, groups)?;
            Ok(rows)
        }
    }
}

fn no_rows(alloc: Global, fault: Fault) -> Rows
    ensures rows { result.rows.items ≡ [] }
    ensures end { result.end ≡ Some fault }
{
    Rows {
        rows: Vec::new(alloc),
        end: Some(fault),
    }
}

/// The rows of groups up to the first fault.
fn group_rows(alloc: Global, spec: &AggSpec, groups: &Groups) -> Result<Rows, NoMemory>
    requires { Stands spec.now (states.Known groups.now) }
    ensures { IfOk result (λ out. AreRows spec.now groups.now out) }
{
    let mut rows = Vec::new(alloc);
    for group in 0..groups.keys.len() {
        match group_row(alloc, spec, groups, group) {
            Ok(row) => rows.push(row)?,
            Err(EvalError::NoMemory) => return Err(NoMemory),
            Err(EvalError::Fault(kind)) => {
                let fault = Fault {
                    relation: spec.relation,
                    kind,
                };
                return Ok(Rows {
                    rows,
                    end: Some(fault),
                });
            }
        }
    }
    Ok(Rows { rows, end: None })
}

/// The row of a group: its key, and what the measures give.
fn group_row(
    alloc: Global,
    spec: &AggSpec,
    groups: &Groups,
    group: usize,
) -> Result<Items<Value>, EvalError>
    requires stands { Stands spec.now (states.Known groups.now) }
    requires group { group < length groups.now.keys.rows }
    ensures { Makes result (row_at spec.now groups.now group) }
{
    match finals(
        alloc,
        spec.measures.as_slice(),
        groups.columns.as_slice(),
        group,
    ) {
        Ok(values) => {
            let key = key_at(alloc, groups, group)?;
            let row = joined(key, values)?;
            Ok(row)
        }
        Err(error) => Err(error),
    }
}

/// The key of a group.
fn key_at(alloc: Global, groups: &Groups, group: usize) -> Result<Items<Value>, NoMemory>
    requires { group < length groups.now.keys.rows }
    ensures { IfOk result (λ key. key ≡ slice_index_or groups.now.keys.rows group []) }
{
    groups.keys.rows()[group].copy_in(alloc)
}

/// A key, and then values.
fn joined(key: Items<Value>, values: Items<Value>) -> Result<Items<Value>, NoMemory>
    ensures { IfOk result (λ row. row ≡ key ++ values) }
{
    let mut row = key.into_vec();
    row.append(&mut values.into_vec())?;
    Ok(Items::from_vec(row))
}

/// What the measures give for a group, up to the first fault.
fn finals(
    alloc: Global,
    measures: &[TypedMeasure],
    columns: &[Tallies],
    group: usize,
) -> Result<Items<Value>, EvalError>
    requires kept { map keeping_in columns.now ≡ map keeping measures.now }
    requires group { All (λ tallies. group < length (tallies_in tallies)) columns.now }
    requires few { All (λ tallies. count_in (tallies_in tallies) ≤ aggregate.MAX_INPUT) columns.now }
    ensures { Makes result (finals_at group measures.now columns.now) }
{
    let mut values = Items::new(alloc);
    let mut place = 0;
    for measure in measures {
        match columns[place].final_at(alloc, group, measure.func, measure.ty.kind) {
            Ok(value) => values.push(value)?,
            Err(error) => return Err(error),
        }
        place += 1;
    }
    Ok(values)
}
