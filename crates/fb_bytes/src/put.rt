// Numbers and zeros, appended to bytes or written over them.
ghost use Rattle.std.specs.Prelude.{◌≡◌, ◌+◌, ◌<◌, ◌≤◌, ◌^◌, ◌++◌, OnOk, length, replicate, take, drop, vec_len};
ghost use Rattle.byteorder.specs.Endian.{little_bytes};
ghost use Rattle.fb_bytes.specs.Layout.{filled};

use crate::fields::round_up;
use sub_types::NoMemory;

// Appends the low `width` bytes of a number.
#[tactic(auto, using(crate::proofs::ByteLemmas::take_little))]
pub(crate) fn put_number(out: &mut Vec<u8>, width: usize, value: u64) -> Result<(), NoMemory>
    requires { width ≤ 8 }
    ensures bytes { OnOk result (out.new.items ≡ out.old.items ++ little_bytes width value) }
    ensures len { OnOk result (vec_len out.new ≡ vec_len out.old + width) }
{
    let bytes = value.to_le_bytes();
    out.extend_from_slice(&bytes[..width])?;
    Ok(())
}

pub(crate) fn put_zeros(out: &mut Vec<u8>, n: usize) -> Result<(), NoMemory>
    requires { vec_len out.old + n < 2 ^ 40 }
    ensures bytes { OnOk result (out.new.items ≡ out.old.items ++ replicate n 0) }
    ensures len { OnOk result (vec_len out.new ≡ vec_len out.old + n) }
{
    out.resize(out.len() + n, 0)?;
    Ok(())
}

// Fills up with zeros to a multiple of 8 from `start` on.
#[tactic(auto, unfolding(crate::specs::Layout::filled))]
pub(crate) fn fill(out: &mut Vec<u8>, start: usize) -> Result<(), NoMemory>
    requires within { start ≤ vec_len out.old }
    requires small { vec_len out.old < 2 ^ 32 }
    ensures { OnOk result (out.new.items ≡ take start out.old.items ++ filled (drop start out.old.items)) }
{
    let size = out.len() - start;
    put_zeros(out, round_up(size) - size)
}

// Writes an offset over the four bytes at a place.
#[tactic(auto, using(crate::proofs::ByteLemmas::written_over))]
pub(crate) fn set_offset(out: &mut Vec<u8>, place: usize, offset: u32)
    requires { place + 4 ≤ vec_len out.old }
    ensures { out.new.items ≡ take place out.old.items ++ (little_bytes 4 offset ++ drop (place + 4) out.old.items) }
{
    write_offset(out, place, offset);
}

// The same in a slice.
fn write_offset(bytes: &mut [u8], place: usize, offset: u32)
    requires { place + 4 ≤ length bytes.old }
    ensures { bytes.new ≡ take place bytes.old ++ (little_bytes 4 offset ++ drop (place + 4) bytes.old) }
{
    bytes[place..place + 4].copy_from_slice(&offset.to_le_bytes());
}
