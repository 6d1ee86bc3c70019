// Truth values as the bytes of a bitmap (Arrow columnar format, validity bitmaps).
ghost use Rattle.std.specs.Prelude.{◌≡◌, IfOk};
ghost use Rattle.sub_types.specs.Bits.{bits_of, IsPacked};
ghost use Rattle.arrow_meta.specs.Buffers.{packed};
ghost use Rattle.arrow_write.specs.Bodies as spec;

use std::alloc::Global;
use sub_types::{Bits, NoMemory};

// How many are false.
#[tactic(auto, using(crate::proofs::KindBuffers::count_both))]
pub(crate) fn count_false(bits: &Bits) -> usize
    ensures { result ≡ spec.count_false bits.now }
{
    bits.len() - bits.count()
}

// Eight to a byte, the unused bits 0.
pub(crate) fn packed_bytes(alloc: Global, bits: &Bits) -> Result<Vec<u8>, NoMemory>
    ensures { IfOk result (λ bytes. bytes.items ≡ packed bits.now) }
{
    first_bits(alloc, bits.bytes(), bits.len())
}

// The first `len` bits of the bytes, and 0 behind them.
fn first_bits(alloc: Global, bytes: &[u8], len: usize) -> Result<Vec<u8>, NoMemory>
    requires { IsPacked len bytes.now }
    ensures { IfOk result (λ out. out.items ≡ packed (bits_of len bytes.now)) }
{
    let whole = len / 8;
    let rest = len % 8;
    let mut out = Vec::from_slice(alloc, &bytes[..whole])?;
    if rest == 0 {
        return Ok(out);
    }
    out.push(bytes[whole] % (1 << rest))?;
    Ok(out)
}
