//! Which of several expressions gives each row's value, by conditions that are tried one after the other.
ghost use Rattle.std.specs.Prelude.{◌≡◌, ◌≤◌, length, IfOk, if◌then◌else◌};
ghost use Rattle.plan_denote.specs.Computed.{is_true};
ghost use Rattle.batch_nodes.specs.Chosen as spec;
ghost use Rattle.batch_nodes.specs.Found.{found_values};
ghost use Rattle.batch_nodes.specs.Narrowed.{open_rows, joined, IsStep};
ghost use Rattle.sub_types.specs.declared.value.Value.TheVariants.{Null};

use crate::Found;
use kernels::{Rows, Stop};
use std::alloc::Global;
use sub_types::{NoMemory, Value};

/// The rows whose choice is this one.
pub fn rows_choosing(
    alloc: Global,
    choice: usize,
    choices: &[usize],
    rows: &Rows<'_>,
) -> Result<Vec<u64>, NoMemory>
    requires { length choices.now ≤ length rows.now }
    ensures { IfOk result (λ left. left.items ≡ open_rows (spec.other_than choice) rows.now choices.now) }
{
    let mut left = Vec::new(alloc);
    for i in 0..choices.len() {
        if choices[i] == choice {
            left.push(rows.row_at(i))?;
        }
    }
    Ok(left)
}

/// The choices, those that are `none` so far settled by the condition of number `number` where it is true, up to the first
/// row at which its value is missing, and the stop there.
pub fn decide(
    alloc: Global,
    none: usize,
    number: usize,
    rows: &Rows<'_>,
    choices: &[usize],
    stop: Stop,
    tests: &Found<'_>,
    tests_stop: Stop,
) -> Result<(Vec<usize>, Stop), NoMemory>
    requires { length choices.now ≤ length rows.now }
    ensures values { IfOk result (λ out. out.0.items ≡ (joined (spec.other_than none) (spec.marked none number) rows.now choices.now stop (found_values tests.now) tests_stop).values) }
    ensures stop { IfOk result (λ out. out.1 ≡ (joined (spec.other_than none) (spec.marked none number) rows.now choices.now stop (found_values tests.now) tests_stop).stop) }
{
    let mut decided = Vec::with_capacity(alloc, choices.len())?;
    let mut used = 0;
    for i in 0..choices.len() {
        match next_choice(alloc, none, number, choices[i], tests, used)? {
            Some((choice, now_used)) => {
                decided.push(choice)?;
                used = now_used;
            }
            None => return Ok((decided, tests_stop)),
        }
    }
    Ok((decided, stop))
}

/// The choice of one row, and how many tests are used then, unless its test is missing.
fn next_choice(
    alloc: Global,
    none: usize,
    number: usize,
    choice: usize,
    tests: &Found<'_>,
    used: usize,
) -> Result<Option<(usize, usize)>, NoMemory>
    ensures { IfOk result (λ next. IsStep (spec.other_than none) (spec.marked none number) Null choice (found_values tests.now) used next) }
{
    if choice != none {
        return Ok(Some((choice, used)));
    }
    if used >= tests.len() {
        return Ok(None);
    }
    let test = tests.value_at(alloc, used)?;
    Ok(Some((marked(none, number, &test), used + 1)))
}

/// The number of a condition that is true.
fn marked(none: usize, number: usize, test: &Value) -> usize
    ensures { result ≡ (if is_true test.now then number else none) }
{
    match test {
        Value::Bool(true) => number,
        _ => none,
    }
}
