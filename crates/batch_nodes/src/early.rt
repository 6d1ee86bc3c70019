//! Calls that end early: which rows an argument's values leave open for the arguments after it.
ghost use Rattle.std.specs.Prelude.{◌≡◌, ◌≤◌, length, is_some, IfOk};
ghost use Rattle.batch.specs.ColumnValues.{values_of};
ghost use Rattle.batch_nodes.specs.Narrowed.{open_rows};
ghost use Rattle.batch_nodes.specs.Early as spec;
ghost use Rattle.plan_denote.specs.Logic as logic;

use batch::Column;
use kernels::Rows;
use std::alloc::Global;
use sub_types::{NoMemory, Value};

/// A call that ends early.
#[derive(Clone, Copy, Debug, PartialEq, Eq)]
pub enum Early {
    /// `and` or `or`, with the truth value that ends it.
    Truth(bool),
    /// `coalesce`, which a value that isn't null ends.
    NotNull,
}

/// What no arguments come to.
pub fn nothing(early: Early) -> Value
    ensures { result ≡ spec.nothing early }
{
    match early {
        Early::Truth(end) => Value::Bool(!end),
        Early::NotNull => Value::Null,
    }
}

/// Whether an argument's value settles the call.
pub fn settles(early: Early, value: &Value) -> bool
    ensures { result ≡ is_some (spec.settles early value.now) }
{
    match (early, value) {
        (Early::Truth(end), Value::Bool(test)) => *test == end,
        (Early::Truth(_), _) => false,
        (Early::NotNull, Value::Null) => false,
        (Early::NotNull, _) => true,
    }
}

/// The rows that an argument's values leave open.
pub fn rows_left(
    alloc: Global,
    early: Early,
    values: &Column,
    rows: &Rows<'_>,
) -> Result<Vec<u64>, NoMemory>
    requires { length (values_of values.now.values) ≤ length rows.now }
    ensures { IfOk result (λ left. left.items ≡ open_rows (spec.settles early) rows.now (values_of values.now.values)) }
{
    let mut left = Vec::new(alloc);
    for i in 0..values.values.len() {
        let value = values.values.value_at(alloc, i)?;
        if !settles(early, &value) {
            left.push(rows.row_at(i))?;
        }
    }
    Ok(left)
}

/// Two truth values by the three-valued table.
pub fn three_valued(end: bool, a: &Value, b: &Value) -> Value
    ensures { result ≡ logic.three_valued end a.now b.now }
{
    if is_truth(end, a) || is_truth(end, b) {
        Value::Bool(end)
    } else if is_truth(!end, a) && is_truth(!end, b) {
        Value::Bool(!end)
    } else {
        Value::Null
    }
}

/// Whether it is this truth value.
fn is_truth(test: bool, value: &Value) -> bool
    ensures { result ≡ logic.is_truth test value.now }
{
    match value {
        Value::Bool(found) => *found == test,
        _ => false,
    }
}
