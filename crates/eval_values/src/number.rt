// Exact sums, differences and products of decimals' numbers. A number that 128 bits don't hold has more than 38
// digits, so that `None` stands for too many digits, and is never the answer where the number itself has no more.
ghost use Rattle.std.specs.Prelude.{◌≡◌, ◌^◌, ◌<◌, ◌≤◌, ℤ, pos, ◌+ℤ◌, ◌-ℤ◌, ◌*ℤ◌, neg_ℤ, unsigned_abs, int_div, int_rem};
ghost use Rattle.eval_values.specs.Number.{IsNumber, IsTens};

/// The most digits of a decimal.
pub(crate) const MOST_DIGITS: u8 = 38;

/// 10 to a power of which 128 bits hold each.
pub(crate) fn power_of_ten(exponent: u8) -> u128
    requires { exponent ≤ 38 }
    ensures value { result ≡ 10 ^ exponent }
    ensures bound { result ≤ 10 ^ 38 }
{
    10u128.pow(u32::from(exponent))
}

pub(crate) fn product(a: i128, b: i128) -> Option<i128>
    ensures { IsNumber result (a *ℤ b) }
{
    a.checked_mul(b)
}

/// A number times 10 to a power, of which only 0 has no more than 38 digits where 128 bits don't hold the power.
pub(crate) fn times_ten_to(n: i128, exponent: u8) -> Option<i128>
    ensures { IsNumber result (n *ℤ pos (10 ^ exponent)) }
{
    if exponent == 0 {
        Some(n)
    } else if n == 0 {
        Some(0)
    } else if exponent > MOST_DIGITS {
        None
    } else {
        product(n, power_of_ten(exponent) as i128)
    }
}

/// The same of a number that may be missing.
fn scaled_up(n: Option<i128>, exponent: u8) -> Option<i128>
    ensures { (exact : ℤ) → IsNumber n exact → IsNumber result (exact *ℤ pos (10 ^ exponent)) }
{
    match n {
        Some(n) => times_ten_to(n, exponent),
        None => None,
    }
}

fn opposite(n: Option<i128>) -> Option<i128>
    ensures { (exact : ℤ) → IsNumber n exact → IsNumber result (neg_ℤ exact) }
{
    match n {
        Some(n) => n.checked_neg(),
        None => None,
    }
}

/// `a` times 10 to `a_by`, and `b` times 10 to `b_by`.
pub(crate) fn sum(a: i128, a_by: u8, b: i128, b_by: u8) -> Option<i128>
    ensures { IsNumber result ((a *ℤ pos (10 ^ a_by)) +ℤ (b *ℤ pos (10 ^ b_by))) }
{
    if a_by < b_by {
        scaled_up(shifted_sum(b, b_by - a_by, a), a_by)
    } else {
        scaled_up(shifted_sum(a, a_by - b_by, b), b_by)
    }
}

/// `a` times 10 to `a_by`, less `b` times 10 to `b_by`.
pub(crate) fn difference(a: i128, a_by: u8, b: i128, b_by: u8) -> Option<i128>
    ensures { IsNumber result ((a *ℤ pos (10 ^ a_by)) -ℤ (b *ℤ pos (10 ^ b_by))) }
{
    if a_by < b_by {
        scaled_up(opposite(shifted_difference(b, b_by - a_by, a)), a_by)
    } else {
        scaled_up(shifted_difference(a, a_by - b_by, b), b_by)
    }
}

/// `high` times 10 to `by`, and `low`. Where `low` brings the sum back within 38 digits, 128 bits may not hold the product:
/// so the last digit is added apart, to ten times the rest, which they hold then.
fn shifted_sum(high: i128, by: u8, low: i128) -> Option<i128>
    ensures { IsNumber result ((high *ℤ pos (10 ^ by)) +ℤ low) }
{
    if by == 0 {
        high.checked_add(low)
    } else {
        tens_and_ones(shifted(high, by - 1, tenth(low)), last_digit(low))
    }
}

/// `high` times 10 to `by`, less `low`, by the same way.
fn shifted_difference(high: i128, by: u8, low: i128) -> Option<i128>
    ensures { IsNumber result ((high *ℤ pos (10 ^ by)) -ℤ low) }
{
    if by == 0 {
        high.checked_sub(low)
    } else {
        tens_and_ones(
            shifted(high, by - 1, minus_tenth(low)),
            minus_last_digit(low),
        )
    }
}

/// `high` times 10 to `by`, and a number that is so small that it doesn't bring back what has too many digits.
fn shifted(high: i128, by: u8, small: i128) -> Option<i128>
    requires { unsigned_abs small < 2 ^ 125 }
    ensures { IsTens result ((high *ℤ pos (10 ^ by)) +ℤ small) }
{
    match times_ten_to(high, by) {
        Some(n) => n.checked_add(small),
        None => None,
    }
}

/// Ten times a number, and a digit. What has too many digits without the digit has too many with it.
fn tens_and_ones(tens: Option<i128>, ones: i128) -> Option<i128>
    requires { unsigned_abs ones < 10 }
    ensures { (exact : ℤ) → IsTens tens exact → IsNumber result ((exact *ℤ pos 10) +ℤ ones) }
{
    let tens = tens?.checked_mul(10)?;
    tens.checked_add(ones)
}

fn tenth(n: i128) -> i128
    ensures value { result ≡ int_div n (pos 10) }
    ensures small { unsigned_abs result < 2 ^ 125 }
{
    n / 10
}

fn last_digit(n: i128) -> i128
    ensures value { result ≡ int_rem n (pos 10) }
    ensures digit { unsigned_abs result < 10 }
{
    n % 10
}

fn minus_tenth(n: i128) -> i128
    ensures value { result ≡ neg_ℤ (int_div n (pos 10)) }
    ensures small { unsigned_abs result < 2 ^ 125 }
{
    -(n / 10)
}

fn minus_last_digit(n: i128) -> i128
    ensures value { result ≡ neg_ℤ (int_rem n (pos 10)) }
    ensures digit { unsigned_abs result < 10 }
{
    -(n % 10)
}
