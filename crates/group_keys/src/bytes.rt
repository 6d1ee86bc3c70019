// Keys by their bytes.
ghost use Rattle.std.specs.Prelude.{◌≡◌, Some, map, slice_get, IfOk, OnOk, OnErr};
ghost use Rattle.indexmap.specs.IndexSet.{IsUnchanged};
ghost use Rattle.group_keys.specs.Keys.{with_item, is_same_bytes};

use indexmap::IndexSet;
use std::alloc::Global;
use sub_types::NoMemory;

/// The number of the group of a key's bytes, which is a new group where the key is new. Only then the bytes are copied.
pub fn group_of_bytes(
    alloc: Global,
    keys: &mut IndexSet<Vec<u8>>,
    key: &[u8],
) -> Result<usize, NoMemory>
    ensures keys { OnOk result (map (λ k. k.items) keys.new.keys ≡ with_item is_same_bytes (map (λ k. k.items) keys.old.keys) key.now) }
    ensures number { IfOk result (λ number. slice_get (map (λ k. k.items) keys.new.keys) number ≡ Some key.now) }
    ensures err { OnErr result (IsUnchanged keys.old keys.new) }
{
    if let Some(number) = keys.get_index_of(key) {
        return Ok(number);
    }
    let copy = Vec::from_slice(alloc, key)?;
    let (number, _) = keys.insert_full(copy)?;
    Ok(number)
}
