// Numbers as the bytes of a buffer, all in one pass (Arrow columnar format, fixed-size primitive layout).
ghost use Rattle.std.specs.Prelude.{◌≡◌, ◌+◌, ◌*◌, ◌++◌, IfOk, OnOk, length, replicate, take};
ghost use Rattle.std.specs.List.{flat_map};

use col_fixed::Native;
use sub_types::NoMemory;

// Adds the bytes of each number, and gives how many bytes these are.
pub(crate) fn append_numbers<T: Native>(
    bytes: &mut Vec<u8>,
    numbers: &[T],
) -> Result<usize, NoMemory>
    ensures bytes { OnOk result (bytes.new.items ≡ bytes.old.items ++ flat_map T.bytes_of numbers.now) }
    ensures len { IfOk result (λ len. len ≡ length (flat_map T.bytes_of numbers.now)) }
{
    let Some(len) = T::SIZE.checked_mul(numbers.len()) else {
        return Err(NoMemory);
    };
    let place = bytes.len();
    append_zeros(bytes, len)?;
    write_behind(bytes, place, numbers);
    Ok(len)
}

// Adds so many zeros.
pub(crate) fn append_zeros(bytes: &mut Vec<u8>, count: usize) -> Result<(), NoMemory>
    ensures { OnOk result (bytes.new.items ≡ bytes.old.items ++ replicate count 0) }
{
    let Some(len) = bytes.len().checked_add(count) else {
        return Err(NoMemory);
    };
    bytes.resize(len, 0)?;
    Ok(())
}

// Writes the bytes of each number over all that stand behind the place.
fn write_behind<T: Native>(bytes: &mut [u8], place: usize, numbers: &[T])
    requires { length bytes.old ≡ place + T.SIZE * length numbers.now }
    ensures { bytes.new ≡ take place bytes.old ++ flat_map T.bytes_of numbers.now }
{
    T::write_all(numbers, &mut bytes[place..]);
}
