// Rows that are the same, where null equals null, and each of them once.
ghost use Rattle.std.specs.List.{list_any};
ghost use Rattle.plan_denote.specs.Order.{is_same as spec_is_same};
ghost use Rattle.std.specs.Prelude.{◌≡◌, IfOk};
ghost use Rattle.plan_denote.specs.Distinct as spec;

use eval_values::is_same;
use plan_leaves::Items;
use std::alloc::Global;
use sub_types::{NoMemory, Value};

pub fn is_same_row(a: &[Value], b: &[Value]) -> bool
    ensures { result ≡ spec.is_same_row a.now b.now }
{
    if a.len() != b.len() {
        return false;
    }
    for (one, other) in a.iter().zip(b) {
        if !is_same(one, other) {
            return false;
        }
    }
    true
}

/// Whether a row is among these.
pub fn is_in(rows: &[Items<Value>], row: &[Value]) -> bool
    ensures { result ≡ spec.is_in rows.now row.now }
{
    for one in rows {
        if is_same_row(row, one.as_slice()) {
            return true;
        }
    }
    false
}

/// How often a row is among these.
pub fn occurrences(rows: &[Items<Value>], row: &[Value]) -> usize
    ensures { result ≡ spec.occurrences rows.now row.now }
{
    let mut found = 0;
    for one in rows {
        if is_same_row(row, one.as_slice()) {
            found += 1;
        }
    }
    found
}

/// Each row once, at its first appearance.
pub fn distinct_rows(
    alloc: Global,
    rows: Items<Items<Value>>,
) -> Result<Items<Items<Value>>, NoMemory>
    ensures { IfOk result (λ found. found ≡ spec.distinct spec.is_same_row rows) }
{
    let mut found = Items::new(alloc);
    for row in rows.into_vec() {
        if !is_in(found.as_slice(), row.as_slice()) {
            found.push(row)?;
        }
    }
    Ok(found)
}

/// Each value once, at its first appearance.
pub fn distinct_values(alloc: Global, values: Items<Value>) -> Result<Items<Value>, NoMemory>
    ensures { IfOk result (λ found. found ≡ spec.distinct spec_is_same values) }
{
    let mut found = Items::new(alloc);
    for value in values.into_vec() {
        if !is_among(found.as_slice(), &value) {
            found.push(value)?;
        }
    }
    Ok(found)
}

fn is_among(values: &[Value], value: &Value) -> bool
    ensures { result ≡ list_any (spec_is_same value.now) values.now }
{
    for one in values {
        if is_same(value, one) {
            return true;
        }
    }
    false
}
