// Bits at places of a part, for the columns that are gathered.
ghost use Rattle.std.specs.Prelude.{◌≡◌, ◌+◌, ◌<◌, ◌≤◌, false, length, All, IfOk};
ghost use Rattle.std.specs.List.{slice_range};
ghost use Rattle.sub_types.specs.Rows.{picked};

use std::alloc::Global;
use sub_types::{Bits, NoMemory};

/// Of the bits from `from` to before `to`, those at these places, in this order.
pub(crate) fn gather_bits(
    alloc: Global,
    bits: &Bits,
    from: usize,
    to: usize,
    at: &[u64],
) -> Result<Bits, NoMemory>
    requires rising { from ≤ to }
    requires within { to ≤ length bits.now }
    requires places { All (λ i. from + i < to) at.now }
    ensures { IfOk result (λ gathered. gathered ≡ picked false at.now (slice_range bits.now from to)) }
{
    if from == 0 {
        return Ok(bits.gather(alloc, at)?);
    }
    let part = bits.part(alloc, from, to)?;
    Ok(part.gather(alloc, at)?)
}

/// The same, without a look at each where all are true. Whether they are is only asked where that is less work.
pub(crate) fn gather_validity(
    alloc: Global,
    valid: &Bits,
    from: usize,
    to: usize,
    at: &[u64],
) -> Result<Bits, NoMemory>
    requires rising { from ≤ to }
    requires within { to ≤ length valid.now }
    requires places { All (λ i. from + i < to) at.now }
    ensures { IfOk result (λ gathered. gathered ≡ picked false at.now (slice_range valid.now from to)) }
{
    if at.len() >= valid.len() / 64 && valid.is_all() {
        return Ok(Bits::ones(alloc, at.len())?);
    }
    gather_bits(alloc, valid, from, to, at)
}
