//! Exact sums.
ghost use Rattle.std.specs.Prelude.{◌≡◌, ◌<◌, ◌≤◌, ◌^◌, ℤ, pos, neg_ℤ, ◌+ℤ◌, ◌*ℤ◌, ◌≤ℤ◌, ◌<ℤ◌, length, FitsSigned, IfSome};
ghost use Rattle.std.specs.Int.{w128};
ghost use Rattle.plan_denote.specs.Tally.{total_of};
ghost use Rattle.kernels.specs.Numbers as numbers;
ghost use Rattle.kernels.specs.Total as totals;

use col_fixed::{Native, View};

/// A sum: the quotient times 10 to the 19, and the remainder, which is from 0 to 10 to the 19 less 1.
#[derive(Clone, Copy, Debug, PartialEq, Eq)]
pub struct WideSum {
    pub quotient: i128,
    pub remainder: i128,
}

/// 10 to the 19.
const UNIT: i128 = 10_000_000_000_000_000_000;

/// The exact sum of the numbers that are there.
pub fn sum<T: Native>(a: View<'_, T>) -> WideSum
    requires { length a < 2 ^ 31 }
    ensures whole { totals.number_of result.quotient result.remainder ≡ total_of (numbers.ints T.number a.entry) }
    ensures decimal { totals.number_of result.quotient result.remainder ≡ total_of (numbers.decs T.number a.entry) }
    ensures least { pos 0 ≤ℤ result.remainder }
    ensures below { result.remainder <ℤ pos (10 ^ 19) }
{
    let values = a.values();
    if T::SIZE <= 8 {
        return split(narrow_total(values));
    }
    match total(values) {
        Some(total) => split(total),
        None => split_total(values),
    }
}

// The sum of numbers of at most 64 bits: 128 bits hold it.
fn narrow_total<T: Native>(values: &[T]) -> i128
    requires narrow { T.SIZE ≤ 8 }
    requires few { length values.now < 2 ^ 31 }
    ensures number { result ≡ totals.total T.number values.now }
    ensures fits { FitsSigned w128 result }
{
    let mut total: i128 = 0;
    for i in 0..values.len() {
        total += values[i].wide();
    }
    total
}

// The sum, unless 128 bits don't hold it on the way.
fn total<T: Native>(values: &[T]) -> Option<i128>
    ensures number { IfSome result (λ total. total ≡ totals.total T.number values.now) }
    ensures fits { IfSome result (λ total. FitsSigned w128 total) }
{
    let mut total: i128 = 0;
    for i in 0..values.len() {
        total = total.checked_add(values[i].wide())?;
    }
    Some(total)
}

fn split(n: i128) -> WideSum
    ensures number { totals.number_of result.quotient result.remainder ≡ n }
    ensures least { pos 0 ≤ℤ result.remainder }
    ensures below { result.remainder <ℤ pos (10 ^ 19) }
    ensures quotient_least { neg_ℤ (pos (2 ^ 64)) ≤ℤ result.quotient }
    ensures quotient_most { result.quotient ≤ℤ pos (2 ^ 64) }
{
    WideSum {
        quotient: n.div_euclid(UNIT),
        remainder: n.rem_euclid(UNIT),
    }
}

// The same sum, each number split first.
fn split_total<T: Native>(values: &[T]) -> WideSum
    requires { length values.now < 2 ^ 31 }
    ensures number { totals.number_of result.quotient result.remainder ≡ totals.total T.number values.now }
    ensures least { pos 0 ≤ℤ result.remainder }
    ensures below { result.remainder <ℤ pos (10 ^ 19) }
{
    let mut quotient: i128 = 0;
    let mut remainder: i128 = 0;
    for i in 0..values.len() {
        let part = split(values[i].wide());
        quotient += part.quotient;
        remainder += part.remainder;
    }
    let carried = split(remainder);
    WideSum {
        quotient: quotient + carried.quotient,
        remainder: carried.remainder,
    }
}
