// The first bit that is false.
ghost use Rattle.std.specs.Prelude.{◌≡◌, ℕ, ◌*◌, ◌<◌, ◌≤◌, true, false, length, slice_index_or, not};
ghost use Rattle.table_rows.specs.First.{IsFirstPlace};

use sub_types::Bits;

/// The first place where false stands.
pub(crate) fn first_false(bits: &Bits) -> Option<usize>
    ensures { IsFirstPlace (λ k. not (slice_index_or bits.now k false)) (length bits.now) result }
{
    let len = bits.len();
    for i in 8 * full_bytes(bits)..len {
        if !bits.get(i) {
            return Some(i);
        }
    }
    None
}

// How many bytes at the front have no bit that is false.
fn full_bytes(bits: &Bits) -> usize
    ensures within { 8 * result ≤ length bits.now }
    ensures full { (k : ℕ) → k < 8 * result → slice_index_or bits.now k false ≡ true }
{
    let bytes = bits.bytes();
    let count = bits.len() / 8;
    for i in 0..count {
        if bytes[i] != 0xff {
            return i;
        }
    }
    count
}
