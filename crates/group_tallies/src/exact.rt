// Exact numbers beyond 128 bits.
ghost use Rattle.std.specs.Prelude.{◌≡◌, ◌*◌, ◌/◌, ◌^◌, ◌<◌, ◌≤◌, pos, ◌+ℤ◌, ◌*ℤ◌, ◌≤ℤ◌, ◌<ℤ◌, neg_ℤ, true, MatchBool, int_div, int_rem, unsigned_abs};
ghost use Rattle.eval_values.specs.Number.{IsNumber};
ghost use Rattle.group_tallies.specs.Totals.{magnitude_of, number_of, number_of_parts};

/// 2^64.
const BASE: i128 = 0x1_0000_0000_0000_0000;

const UNSIGNED_BASE: u128 = 0x1_0000_0000_0000_0000;

/// 2^63.
const HALF: u128 = 0x8000_0000_0000_0000;

/// A number by its sign and its size, which is `high` times 2^64, and `low`.
#[derive(Clone, Copy)]
pub(crate) struct Exact {
    negative: bool,
    high: u128,
    low: u128,
}

/// A number divided by 2^64, and what is left of it, both with its sign.
pub(crate) fn high_part(n: i128) -> i128
    ensures value { result ≡ int_div n (pos (2 ^ 64)) }
    ensures bound { unsigned_abs result ≤ 2 ^ 63 }
{
    n / BASE
}

pub(crate) fn low_part(n: i128) -> i128
    ensures value { result ≡ int_rem n (pos (2 ^ 64)) }
    ensures bound { unsigned_abs result < 2 ^ 64 }
{
    n % BASE
}

/// A number in two parts by its sign and its size.
pub(crate) fn settled(high: i128, low: i128) -> Exact
    requires high_bound { unsigned_abs high < 2 ^ 126 }
    requires low_bound { unsigned_abs low < 2 ^ 127 }
    ensures value { number_of result ≡ number_of_parts high low }
    ensures settled { result.low < 2 ^ 64 }
{
    let whole_high = high + high_part(low);
    let rest = low_part(low);
    if is_negative(whole_high, rest) {
        opposite_of(whole_high, rest)
    } else {
        of_parts(false, whole_high, rest)
    }
}

/// Whether a number is below zero.
fn is_negative(high: i128, low: i128) -> bool
    requires { unsigned_abs low < 2 ^ 64 }
    ensures { MatchBool result (((high *ℤ pos (2 ^ 64)) +ℤ low) <ℤ pos 0) (pos 0 ≤ℤ ((high *ℤ pos (2 ^ 64)) +ℤ low)) }
{
    high < 0 || high == 0 && low < 0
}

/// A number below zero.
fn opposite_of(high: i128, low: i128) -> Exact
    requires below { ((high *ℤ pos (2 ^ 64)) +ℤ low) <ℤ pos 0 }
    requires high_bound { unsigned_abs high < 2 ^ 127 }
    requires low_bound { unsigned_abs low < 2 ^ 64 }
    ensures size { pos (magnitude_of result) ≡ neg_ℤ ((high *ℤ pos (2 ^ 64)) +ℤ low) }
    ensures sign { result.negative ≡ true }
    ensures settled { result.low < 2 ^ 64 }
{
    of_parts(true, -high, -low)
}

/// A number of this sign, of a size that isn't negative: what the low part lacks is taken from the high part.
fn of_parts(negative: bool, high: i128, low: i128) -> Exact
    requires size { pos 0 ≤ℤ ((high *ℤ pos (2 ^ 64)) +ℤ low) }
    requires low_bound { unsigned_abs low < 2 ^ 64 }
    ensures size { pos (magnitude_of result) ≡ (high *ℤ pos (2 ^ 64)) +ℤ low }
    ensures sign { result.negative ≡ negative }
    ensures settled { result.low < 2 ^ 64 }
{
    if low < 0 {
        Exact {
            negative,
            high: (high - 1) as u128,
            low: (low + BASE) as u128,
        }
    } else {
        Exact {
            negative,
            high: high as u128,
            low: low as u128,
        }
    }
}

impl Exact {
    /// The number, unless it has more than 38 digits and 128 bits don't hold it.
    pub(crate) fn narrow(self) -> Option<i128>
        requires { self.low < 2 ^ 64 }
        ensures { IsNumber result (number_of self) }
    {
        if self.high >= HALF {
            return None;
        }
        let size = (self.high * UNSIGNED_BASE + self.low) as i128;
        Some(if self.negative { -size } else { size })
    }

    /// The number divided by a count, and truncated toward zero.
    pub(crate) fn divided_by(self, count: u128) -> Exact
        requires some { 0 < count }
        requires few { count < 2 ^ 63 }
        requires settled { self.low < 2 ^ 64 }
        ensures size { magnitude_of result ≡ magnitude_of self / count }
        ensures sign { result.negative ≡ self.negative }
        ensures settled { result.low < 2 ^ 64 }
    {
        let rest = self.high % count * UNSIGNED_BASE + self.low;
        Exact {
            negative: self.negative,
            high: self.high / count,
            low: rest / count,
        }
    }
}
