//! The rows at which a condition is true.
ghost use Rattle.std.specs.Prelude.{◌≡◌, ◌*◌, ◌<◌, length, slice_index_or, None, IfOk, if◌then◌else◌};
ghost use Rattle.std.specs.List.{filter, range_with_len};
ghost use Rattle.sub_types.specs.Bits.{bit_of};
ghost use Rattle.sub_types.specs.Nullable.{bool_value};
ghost use Rattle.plan_denote.specs.Computed.{is_true};

use crate::Selection;
use col_fixed::BoolCol;
use std::alloc::Global;
use sub_types::NoMemory;

/// The places of the values that are true.
pub fn select(alloc: Global, a: &BoolCol) -> Result<Selection, NoMemory>
    ensures { IfOk result (λ selection. selection.rows.items ≡ filter (λ i. is_true (bool_value (slice_index_or a.now i None))) (range_with_len 0 (length a.now))) }
{
    let bytes = a.values().bytes();
    let len = a.len();
    let mut rows = vec![in alloc; 0; len]?;
    let mut count = 0;
    for i in 0..len {
        rows[count] = i as u64;
        count += bit_at(bytes, i);
    }
    rows.truncate(count);
    Ok(Selection { rows })
}

// 1 for a bit that is set, and else 0.
fn bit_at(bytes: &[u8], i: usize) -> usize
    requires { i < 8 * length bytes.now }
    ensures { result ≡ (if bit_of bytes.now i then 1 else 0) }
{
    usize::from(bytes[i / 8] >> (i % 8) & 1)
}
