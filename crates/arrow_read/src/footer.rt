// The footer of a file.
ghost use Rattle.std.specs.Prelude.{◌≡◌, ◌+◌, ◌<◌, ◌≤◌, ◌^◌, length, vec_len, IfOk};
ghost use Rattle.std.specs.List.{All};
ghost use Rattle.world.specs.Counts.{HasCause};
ghost use Rattle.arrow_meta.specs.Known.{IsShape};
ghost use Rattle.arrow_meta.specs.Seen.{footer_seen};
ghost use Rattle.arrow_meta.specs.Head.{refused, footer_at};
ghost use Rattle.arrow_read.specs.Told.{IfTold};
ghost use Rattle.arrow_read.specs.Refused.{Opens};

use crate::OpenError;
use crate::range::read_range;
use arrow_meta::{Block, MetaError, Schema, read_footer};
use std::alloc::Global;
use world::Reader;

/// The footer that begins at a place of a file of this length.
#[tactic(auto, unfolding(arrow_meta::specs::Head::footer_at))]
pub(crate) fn footer<R: Reader>(
    alloc: Global,
    reader: &mut R,
    start: u64,
    len: u64,
) -> Result<(Schema, Vec<Block>, Vec<Block>), OpenError>
    requires len { IfTold (R.bytes reader.old) (λ told. len ≡ length told) }
    requires within { start + 10 ≤ len }
    requires short { len < start + 10 + 2 ^ 31 }
    ensures footer { IfTold (R.bytes reader.old) (λ told. Opens footer_seen result (footer_at told start)) }
    ensures shapes { IfOk result (λ read. All (λ field. IsShape field.shape) read.0.columns) }
    ensures few_columns { IfOk result (λ read. length read.0.columns < 2 ^ 32) }
    ensures few { IfOk result (λ read. vec_len read.2 < 2 ^ 27) }
    ensures cause { HasCause OpenError.ReadFault (R.faults reader.old) (R.faults reader.new) result }
    ensures bytes { R.bytes reader.new ≡ R.bytes reader.old }
{
    let bytes = read_range(alloc, reader, start, len - 10 - start)?;
    match read_footer(alloc, &bytes) {
        Ok(read) => Ok(read),
        Err(MetaError::Unsupported { column }) => Err(OpenError::Unsupported { column }),
        Err(MetaError::NoMemory) => Err(OpenError::NoMemory),
        Err(_) => Err(OpenError::BadFooter { place: start }),
    }
}
