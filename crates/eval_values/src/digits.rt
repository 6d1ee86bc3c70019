// The number that a text writes.
ghost use Rattle.std.specs.Prelude.{◌+◌, ◌*◌, ◌^◌, ◌<◌};
ghost use Rattle.std.specs.Option.{SomeIff};
ghost use Rattle.eval_values.specs.Number.{IsUnsigned, IsWritten};

/// The number that a text writes: perhaps a `-`, and then digits. It is missing where the text writes none, or one beyond
/// 64 bits.
pub(crate) fn number_of(text: &[u8]) -> Option<i128>
    ensures { IsWritten result text.now }
{
    match text.split_first() {
        Some((b'-', rest)) => match unsigned_of(rest) {
            Some(n) => Some(-i128::from(n)),
            None => None,
        },
        _ => match unsigned_of(text) {
            Some(n) => Some(i128::from(n)),
            None => None,
        },
    }
}

fn unsigned_of(digits: &[u8]) -> Option<u64>
    ensures { IsUnsigned result digits.now }
{
    if digits.is_empty() {
        return None;
    }
    let mut n: u64 = 0;
    for digit in digits {
        if !digit.is_ascii_digit() {
            return None;
        }
        let Some(more) = with_digit(n, *digit - b'0') else {
            return None;
        };
        n = more;
    }
    Some(n)
}

/// A number with one more digit, if 64 bits hold it.
fn with_digit(n: u64, digit: u8) -> Option<u64>
    ensures { SomeIff result (n * 10 + digit < 2 ^ 64) (n * 10 + digit) }
{
    n.checked_mul(10)?.checked_add(u64::from(digit))
}
