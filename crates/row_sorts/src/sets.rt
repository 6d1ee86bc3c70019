// Set operations.
ghost use Rattle.std.specs.List.{flat_map, list_all, list_any};
ghost use Rattle.plan_denote.specs.Distinct.{is_in as spec_is_in};
ghost use Rattle.std.specs.Prelude.{◌≡◌, ◌≢◌, ◌<◌, map, length, IfOk};
ghost use Rattle.plan_typed.specs.declared.rel.SetOp.TheVariants as ops;
ghost use Rattle.plan_denote.specs.Rows.{unless_fault};
ghost use Rattle.plan_denote.specs.Sets as spec;
ghost use Rattle.row_steps.specs.Seen.{seen};
ghost use Rattle.row_sorts.specs.SetPlaces.{takes};
ghost use Rattle.sub_types.specs.Stream.{rows_alone};

use crate::distinct::{distinct_rows, is_in, occurrences};
use plan_leaves::{CopyIn, Items};
use plan_typed::SetOp;
use row_steps::{RowStream, Stream, ended, glued, map_into};
use std::alloc::Global;
use sub_types::{Fault, NoMemory, Value};

/// The rows of a set operation over its inputs.
pub fn set_rows(alloc: Global, op: SetOp, inputs: Items<RowStream>) -> Result<RowStream, NoMemory>
    ensures { IfOk result (λ s. seen s ≡ spec.set_rows op (map seen inputs)) }
{
    match op {
        SetOp::UnionAll => glued(alloc, inputs),
        _ => whole_rows(alloc, op, inputs),
    }
}

/// The rows of an operation that needs all rows of its inputs.
fn whole_rows(alloc: Global, op: SetOp, inputs: Items<RowStream>) -> Result<RowStream, NoMemory>
    ensures { IfOk result (λ s. seen s ≡ unless_fault (spec.first_fault (map seen inputs)) (rows_alone (spec.set_in op (map (λ input. input.rows) (map seen inputs))))) }
{
    if let Some(fault) = first_fault(inputs.as_slice()) {
        return Ok(ended(alloc, Some(fault)));
    }
    Ok(Stream {
        rows: set_in(alloc, op, rows_of(alloc, inputs)?)?,
        end: None,
    })
}

/// The fault of the first input that ends in one.
fn first_fault(inputs: &[RowStream]) -> Option<Fault>
    ensures { result ≡ spec.first_fault (map seen inputs.now) }
{
    for input in inputs {
        if let Some(fault) = input.end {
            return Some(fault);
        }
    }
    None
}

/// The rows of each input.
fn rows_of(alloc: Global, inputs: Items<RowStream>) -> Result<Items<Items<Items<Value>>>, NoMemory>
    ensures { IfOk result (λ rows. rows ≡ map (λ input. input.rows) inputs) }
{
    map_into(alloc, inputs, |input| Ok(input.rows))
}

/// The rows of an operation over whole inputs.
fn set_in(
    alloc: Global,
    op: SetOp,
    inputs: Items<Items<Items<Value>>>,
) -> Result<Items<Items<Value>>, NoMemory>
    ensures { IfOk result (λ rows. rows ≡ spec.set_in op inputs) }
{
    if op == SetOp::UnionDistinct || op == SetOp::UnionAll {
        let all = all_rows(alloc, inputs)?;
        return if op == SetOp::UnionAll {
            Ok(all)
        } else {
            distinct_rows(alloc, all)
        };
    }
    match inputs.as_slice().split_first() {
        Some((first, others)) => set_of(alloc, op, first.as_slice(), others),
        None => Ok(Items::new(alloc)),
    }
}

/// The rows of a minus or an intersection over the first input and the others.
fn set_of(
    alloc: Global,
    op: SetOp,
    first: &[Items<Value>],
    others: &[Items<Items<Value>>],
) -> Result<Items<Items<Value>>, NoMemory>
    ensures { (op ≢ ops.UnionDistinct) → (op ≢ ops.UnionAll) → IfOk result (λ rows. rows ≡ spec.set_of op first.now others.now) }
{
    let mut rows = Items::new(alloc);
    for place in 0..first.len() {
        if is_taken(op, first, place, others) {
            let row = first[place].copy_in(alloc)?;
            rows.push(row)?;
        }
    }
    Ok(rows)
}

/// Whether the row at a place of the first input is one of the operation's.
fn is_taken(op: SetOp, first: &[Items<Value>], place: usize, others: &[Items<Items<Value>>]) -> bool
    requires { place < length first.now }
    ensures { result ≡ takes op first.now others.now place }
{
    let row = first[place].as_slice();
    let before = occurrences(&first[..place], row);
    match op {
        SetOp::MinusPrimary => before == 0 && !in_some(others, row),
        SetOp::MinusPrimaryAll => {
            let many = occurrences(first, row) as u128;
            (before as u128) < many.saturating_sub(occurrences_in(others, row))
        }
        SetOp::IntersectionPrimary => before == 0 && in_some(others, row),
        SetOp::IntersectionMultiset => before == 0 && in_all(others, row),
        SetOp::IntersectionMultisetAll => before < fewest(occurrences(first, row), others, row),
        SetOp::UnionDistinct => before == 0,
        SetOp::UnionAll => true,
    }
}

/// Whether a row is in some input, and in all.
fn in_some(inputs: &[Items<Items<Value>>], row: &[Value]) -> bool
    ensures { result ≡ list_any (λ rows. spec_is_in rows row.now) inputs.now }
{
    for rows in inputs {
        if is_in(rows.as_slice(), row) {
            return true;
        }
    }
    false
}

fn in_all(inputs: &[Items<Items<Value>>], row: &[Value]) -> bool
    ensures { result ≡ list_all (λ rows. spec_is_in rows row.now) inputs.now }
{
    for rows in inputs {
        if !is_in(rows.as_slice(), row) {
            return false;
        }
    }
    true
}

/// How often a row is in all inputs together.
fn occurrences_in(inputs: &[Items<Items<Value>>], row: &[Value]) -> u128
    ensures { result ≡ spec.occurrences_in inputs.now row.now }
{
    let mut found = 0;
    for rows in inputs {
        found += occurrences(rows.as_slice(), row) as u128;
    }
    found
}

/// The least of a number and how often a row is in each input.
fn fewest(many: usize, inputs: &[Items<Items<Value>>], row: &[Value]) -> usize
    ensures { result ≡ spec.fewest many inputs.now row.now }
{
    let mut least = many;
    for rows in inputs {
        least = least.min(occurrences(rows.as_slice(), row));
    }
    least
}

/// The rows of all inputs in order.
fn all_rows(
    alloc: Global,
    inputs: Items<Items<Items<Value>>>,
) -> Result<Items<Items<Value>>, NoMemory>
    ensures { IfOk result (λ rows. rows ≡ flat_map (λ one. one) inputs) }
{
    let mut all = Vec::new(alloc);
    for rows in inputs.into_vec() {
        let mut rows = rows.into_vec();
        all.append(&mut rows)?;
    }
    Ok(Items::from_vec(all))
}
