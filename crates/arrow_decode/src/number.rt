// Numbers of a fixed width, and columns of them.
ghost use Rattle.std.specs.Prelude.{◌≡◌, map, vec_len, IfOk, IfSome};
ghost use Rattle.std.specs.Option.{option_map};
ghost use Rattle.arrow_meta.specs.Values.{signed_in};

use col_fixed::Native;
use std::alloc::Global;
use sub_types::NoMemory;

/// The first `count` numbers of a buffer, or none where it has fewer.
pub(crate) fn numbers<T: Native>(
    alloc: Global,
    count: usize,
    buffer: &[u8],
) -> Result<Option<Vec<T>>, NoMemory>
    ensures numbers { IfOk result (λ found. option_map (λ numbers. map T.number numbers.items) found
        ≡ signed_in T.width T.SIZE count buffer.now) }
    ensures long { IfOk result (λ found. IfSome found (λ numbers. vec_len numbers ≡ count)) }
{
    let Some(size) = T::SIZE.checked_mul(count) else {
        return Ok(None);
    };
    if size > buffer.len() {
        return Ok(None);
    }
    let (bytes, _) = buffer.split_at(size);
    let numbers = T::read_all(alloc, bytes)?;
    Ok(Some(numbers))
}
