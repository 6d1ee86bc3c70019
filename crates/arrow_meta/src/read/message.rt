// The messages of record batches and dictionaries, read (Message.fbs, `Message`).
ghost use Rattle.std.specs.Prelude.{◌≡◌, ◌<◌, ◌^◌, length};
ghost use Rattle.arrow_meta.specs.Looked.{Answers};
ghost use Rattle.arrow_meta.specs.Message as spec;
ghost use Rattle.arrow_meta.specs.Seen.{dictionary_seen};

use crate::read::block::pairs;
use crate::read::look::{number, table};
use crate::{MetaError, RecordMeta};
use fb_bytes::Table;
use std::alloc::Global;

/// What the metadata of a record batch message says (Arrow columnar format, "RecordBatch message").
#[tactic(auto, unfolding(crate::specs::Message::record_in))]
pub fn read_message(alloc: Global, bytes: &[u8]) -> Result<RecordMeta, MetaError>
    requires { length bytes.now < 2 ^ 31 }
    ensures { Answers (λ meta. meta) result (spec.record_in bytes.now) }
{
    let header = header(bytes, 3)?;
    record_batch(alloc, &header)
}

/// What the metadata of a dictionary message says: the dictionary's id, whether the block adds to those
/// before it, and its values (Arrow columnar format, "Dictionary Messages").
#[tactic(auto, unfolding(crate::specs::Message::dictionary_in))]
pub fn read_dictionary(alloc: Global, bytes: &[u8]) -> Result<(i64, bool, RecordMeta), MetaError>
    requires { length bytes.now < 2 ^ 31 }
    ensures { Answers dictionary_seen result (spec.dictionary_in bytes.now) }
{
    let dictionary = header(bytes, 2)?;
    let id = number(&dictionary, 0, 8, 0)?;
    let delta = number(&dictionary, 2, 1, 0)?;
    let batch = table(&dictionary, 1)?;
    let values = record_batch(alloc, &batch)?;
    Ok((id.cast_signed(), delta != 0, values))
}

// The header of a message, which is of this tag in the union MessageHeader.
#[tactic(auto, unfolding(crate::specs::Message::header_in))]
fn header(bytes: &[u8], tag: u64) -> Result<Table<'_>, MetaError>
    requires { length bytes.now < 2 ^ 31 }
    ensures { result ≡ spec.header_in tag bytes.now }
{
    let message = Table::root(bytes)?;
    let version = number(&message, 0, 2, 0)?;
    if version != 3 && version != 4 {
        return Err(MetaError::Bad);
    }
    let found = number(&message, 1, 1, 0)?;
    if found != tag {
        return Err(MetaError::Bad);
    }
    table(&message, 2)
}

// A record batch without compression.
#[tactic(auto, unfolding(crate::specs::Message::batch_in))]
fn record_batch(alloc: Global, batch: &Table<'_>) -> Result<RecordMeta, MetaError>
    ensures { Answers (λ meta. meta) result (spec.batch_in batch.now) }
{
    let length = number(batch, 0, 8, 0)?;
    let nodes = pairs(alloc, batch, 1)?;
    let buffers = pairs(alloc, batch, 2)?;
    if batch.table(3)?.is_some() {
        return Err(MetaError::Compressed);
    }
    Ok(RecordMeta {
        length: length.cast_signed(),
        nodes,
        buffers,
    })
}
