// Keys of one whole number.
ghost use Rattle.std.specs.Prelude.{◌≡◌, Some, map, slice_get, IfOk, OnOk, OnErr};
ghost use Rattle.indexmap.specs.IndexSet.{IsUnchanged};
ghost use Rattle.plan_denote.specs.Distinct.{is_same_row};
ghost use Rattle.group_keys.specs.Keys.{with_item, key_of_number};

use indexmap::IndexSet;
use sub_types::NoMemory;

/// The number of the group of a whole number or of null, which is a new group where the key is new.
pub fn group_of_number(
    keys: &mut IndexSet<Option<i64>>,
    key: Option<i64>,
) -> Result<usize, NoMemory>
    ensures keys { OnOk result (map key_of_number keys.new.keys ≡ with_item is_same_row (map key_of_number keys.old.keys) (key_of_number key)) }
    ensures number { IfOk result (λ number. slice_get (map key_of_number keys.new.keys) number ≡ Some (key_of_number key)) }
    ensures err { OnErr result (IsUnchanged keys.old keys.new) }
{
    let (number, _) = keys.insert_full(key)?;
    Ok(number)
}
