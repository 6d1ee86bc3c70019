// The texts of a dictionary block.
ghost use Rattle.std.specs.Prelude.{◌≡◌, ◌<◌, ◌^◌, IfOk};
ghost use Rattle.arrow_meta.specs.Dictionary.{batch_texts, buffer_texts};
ghost use Rattle.arrow_decode.specs.Buffers.{buffers_seen};

use crate::buffer::validity;
use crate::extents::{Buffers, column_buffers, row_count};
use crate::text::texts;
use arrow_meta::RecordMeta;
use col_text::TextCol;
use std::alloc::Global;
use sub_types::NoMemory;

/// The values of a dictionary block: a batch of one column of texts, with offsets of 8 bytes where they are
/// wide and else of 4 (Arrow columnar format, "Dictionary Messages"). None where it is bad.
#[tactic(auto, unfolding(arrow_meta::specs::Dictionary::batch_texts))]
pub fn decode_texts(
    alloc: Global,
    wide: bool,
    values: &RecordMeta,
    body: &[u8],
) -> Result<Option<TextCol>, NoMemory>
    ensures { IfOk result (λ found. found ≡ batch_texts wide values.now body.now) }
{
    let shapes = [3];
    let Some(count) = row_count(&shapes, values) else {
        return Ok(None);
    };
    let Some(buffers) = column_buffers(&shapes, values, body, count, 0) else {
        return Ok(None);
    };
    text_buffers(alloc, wide, count, &buffers)
}

// The texts in the buffers of a column of texts.
fn text_buffers(
    alloc: Global,
    wide: bool,
    count: usize,
    buffers: &Buffers<'_>,
) -> Result<Option<TextCol>, NoMemory>
    requires { count < 2 ^ 31 }
    ensures { IfOk result (λ found. found ≡ buffer_texts wide count (buffers_seen buffers.now)) }
{
    let Some(bytes) = buffers.second else {
        return Ok(None);
    };
    let Some(valid) = validity(alloc, count, buffers.validity)? else {
        return Ok(None);
    };
    texts(alloc, wide, count, valid, buffers.first, bytes)
}
