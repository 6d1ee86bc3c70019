// Exact sums of numbers of 128 bits, and their averages.
ghost use Rattle.std.specs.Prelude.{◌≡◌, ◌*◌, ◌/◌, ◌^◌, ◌<◌, ◌≤◌, pos, ◌+ℤ◌, ◌*ℤ◌, ◌≤ℤ◌, ◌<ℤ◌, neg_ℤ, true, length, MatchBool, int_div, int_rem, unsigned_abs};
ghost use Rattle.eval_values.specs.Number.{IsNumber};
ghost use Rattle.plan_denote.specs.Order.{number_in as spec_number_in};
ghost use Rattle.plan_denote.specs.Tally as spec;
ghost use Rattle.row_tallies.specs.Totals.{magnitude_of, number_of, total_number};

use sub_types::Value;

/// 2^64.
const BASE: i128 = 0x1_0000_0000_0000_0000;

const UNSIGNED_BASE: u128 = 0x1_0000_0000_0000_0000;

/// 2^63.
const HALF: u128 = 0x8000_0000_0000_0000;

/// An exact sum: `high` times 2^64, and `low`.
#[derive(Clone, Copy)]
struct Total {
    high: i128,
    low: i128,
}

/// A number by its sign and its size, which is `high` times 2^64, and `low`.
#[derive(Clone, Copy)]
pub struct Exact {
    negative: bool,
    high: u128,
    low: u128,
}

/// The exact sum of the numbers in values.
pub fn total_of(values: &[Value]) -> Exact
    ensures value { number_of result ≡ spec.total_of values.now }
    ensures settled { result.low < 2 ^ 64 }
{
    settled(sum_of(values))
}

/// The sum of the high parts, and of the low parts.
fn sum_of(values: &[Value]) -> Total
    ensures value { total_number result ≡ spec.total_of values.now }
    ensures high_bound { unsigned_abs result.high ≤ length values.now * 2 ^ 63 }
    ensures low_bound { unsigned_abs result.low ≤ length values.now * 2 ^ 64 }
    ensures few { length values.now < 2 ^ 63 }
{
    let mut high = 0;
    let mut low = 0;
    for value in values {
        let number = number_in(value);
        high += high_part(number);
        low += low_part(number);
    }
    Total { high, low }
}

/// A number divided by 2^64, and what is left of it, both with its sign.
fn high_part(n: i128) -> i128
    ensures value { result ≡ int_div n (pos (2 ^ 64)) }
    ensures bound { unsigned_abs result ≤ 2 ^ 63 }
{
    n / BASE
}

fn low_part(n: i128) -> i128
    ensures value { result ≡ int_rem n (pos (2 ^ 64)) }
    ensures bound { unsigned_abs result < 2 ^ 64 }
{
    n % BASE
}

fn number_in(value: &Value) -> i128
    ensures { result ≡ spec_number_in value.now }
{
    match value {
        Value::Int(number) => i128::from(*number),
        Value::Dec(number) => *number,
        _ => 0,
    }
}

/// The sum by its sign and its size.
fn settled(total: Total) -> Exact
    requires high_bound { unsigned_abs total.high < 2 ^ 126 }
    requires low_bound { unsigned_abs total.low < 2 ^ 127 }
    ensures value { number_of result ≡ total_number total }
    ensures settled { result.low < 2 ^ 64 }
{
    let high = total.high + high_part(total.low);
    let low = low_part(total.low);
    if is_negative(high, low) {
        opposite_of(high, low)
    } else {
        of_parts(false, high, low)
    }
}

/// Whether a number is below zero.
fn is_negative(high: i128, low: i128) -> bool
    requires { unsigned_abs low < 2 ^ 64 }
    ensures { MatchBool result (((high *ℤ pos (2 ^ 64)) +ℤ low) <ℤ pos 0) (pos 0 ≤ℤ ((high *ℤ pos (2 ^ 64)) +ℤ low)) }
{
    high < 0 || high == 0 && low < 0
}

/// A number below zero.
fn opposite_of(high: i128, low: i128) -> Exact
    requires below { ((high *ℤ pos (2 ^ 64)) +ℤ low) <ℤ pos 0 }
    requires high_bound { unsigned_abs high < 2 ^ 127 }
    requires low_bound { unsigned_abs low < 2 ^ 64 }
    ensures size { pos (magnitude_of result) ≡ neg_ℤ ((high *ℤ pos (2 ^ 64)) +ℤ low) }
    ensures sign { result.negative ≡ true }
    ensures settled { result.low < 2 ^ 64 }
{
    of_parts(true, -high, -low)
}

/// A number of this sign, of a size that isn't negative: what the low part lacks is taken from the high part.
fn of_parts(negative: bool, high: i128, low: i128) -> Exact
    requires size { pos 0 ≤ℤ ((high *ℤ pos (2 ^ 64)) +ℤ low) }
    requires low_bound { unsigned_abs low < 2 ^ 64 }
    ensures size { pos (magnitude_of result) ≡ (high *ℤ pos (2 ^ 64)) +ℤ low }
    ensures sign { result.negative ≡ negative }
    ensures settled { result.low < 2 ^ 64 }
{
    if low < 0 {
        Exact {
            negative,
            high: (high - 1) as u128,
            low: (low + BASE) as u128,
        }
    } else {
        Exact {
            negative,
            high: high as u128,
            low: low as u128,
        }
    }
}

impl Exact {
    /// The number, unless it has more than 38 digits and 128 bits don't hold it.
    pub fn narrow(self) -> Option<i128>
        requires { self.low < 2 ^ 64 }
        ensures { IsNumber result (number_of self) }
    {
        if self.high >= HALF {
            return None;
        }
        let size = (self.high * UNSIGNED_BASE + self.low) as i128;
        Some(if self.negative { -size } else { size })
    }

    /// The number divided by a count, and truncated toward zero.
    pub fn divided_by(self, count: u128) -> Exact
        requires some { 0 < count }
        requires few { count < 2 ^ 63 }
        requires settled { self.low < 2 ^ 64 }
        ensures size { magnitude_of result ≡ magnitude_of self / count }
        ensures sign { result.negative ≡ self.negative }
        ensures settled { result.low < 2 ^ 64 }
    {
        let rest = self.high % count * UNSIGNED_BASE + self.low;
        Exact {
            negative: self.negative,
            high: self.high / count,
            low: rest / count,
        }
    }
}
