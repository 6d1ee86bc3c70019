// How the prefixes of a batch are made numbers of 32 bits.
ghost use Rattle.std.specs.Prelude.{◌≡◌, ◌<◌, ◌^◌, length, All};

use crate::prefixes::key_prefix;
use batch::Batch;
use rel_specs::KeyOrder;

/// The greatest number of 32 bits.
const MOST: u64 = 0xFFFF_FFFF;

/// How many rows are looked at.
const SAMPLES: u64 = 64;

/// How prefixes are made numbers of 32 bits: by how far they are above the least, by the upper bits of that.
#[derive(Clone, Copy, Debug)]
pub(crate) struct Scale {
    pub least: u64,
    pub shift: u32,
    ghost shifted: { shift < 64 },
}

impl Scale {
    ghost use Rattle.sort_merge.specs.Prefix as spec;

    /// A prefix as a number of 32 bits.
    pub(crate) fn shortened(&self, prefix: u64) -> u64
        ensures shortened { result ≡ spec.shortened self.now prefix }
        ensures small { result < 2 ^ 32 }
    {
        (prefix.saturating_sub(self.least) >> self.shift).min(MOST)
    }
}

/// A scale that tells the prefixes of a batch apart, as far as some rows all over it show. Those of nulls stand at either end.
pub(crate) fn scale_of(keys: &[KeyOrder], batch: &Batch) -> Scale
    requires columns { All (λ key. key.column < length batch.now.columns.items) keys.now }
{
    let step = batch.rows / SAMPLES + 1;
    let mut least = u64::MAX;
    let mut most = 0;
    for sample in 0..SAMPLES {
        let row = step.saturating_mul(sample);
        if row < batch.rows {
            let prefix = key_prefix(keys, batch, row);
            if prefix != 0 && prefix != u64::MAX {
                least = least.min(prefix);
                most = most.max(prefix);
            }
        }
    }
    if least > most {
        return scale_around(0, u64::MAX);
    }
    scale_around(least, most)
}

// A scale of what lies from the least to the most, and as far again on either side.
fn scale_around(least: u64, most: u64) -> Scale {
    let range = most.saturating_sub(least);
    let first = least.saturating_sub(range);
    let last = most.saturating_add(range);
    let bits = 64 - last.saturating_sub(first).leading_zeros();
    Scale {
        least: first,
        shift: bits.saturating_sub(32),
    }
}
