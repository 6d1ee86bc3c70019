// The message of a record batch (Message.fbs, `RecordBatch`).
ghost use Rattle.std.specs.Prelude.{◌≡◌, ◌≤◌, ◌<◌, ◌^◌, IfOk, Ok, length, map, vec_len};
ghost use Rattle.std.specs.Int.{w64, cast_unsigned};
ghost use Rattle.fb_bytes.specs.Layout.{buffer_of};
ghost use Rattle.fb_bytes.specs.Object.{laid, IsSound};
ghost use Rattle.arrow_meta.specs.Messages.{record_laid};
ghost use Rattle.arrow_meta.specs.Meta.{unsigned_pair, record_of};
ghost use Rattle.arrow_meta.specs.Message.{record_in};
ghost use Rattle.arrow_meta.specs.Written.{IsMeta};

use crate::RecordMeta;
use crate::write::message::{message_object, root_bytes};
use crate::write::structs::pairs_bytes;
use fb_bytes::{FbField, FbObject, laid_lengths, laid_reads_back};
use std::alloc::Global;
use sub_types::NoMemory;

/// The metadata of a record batch message whose body has `body_len` bytes (Arrow columnar format,
/// "RecordBatch message"). The mark and the size before it are not written.
pub fn write_record_message(
    alloc: Global,
    meta: &RecordMeta,
    body_len: i64,
) -> Result<Vec<u8>, NoMemory>
    requires few_nodes { length meta.now.nodes ≤ 1024 }
    requires few_buffers { length meta.now.buffers ≤ 3072 }
    ensures bytes { IfOk result (λ bytes. bytes.items ≡ buffer_of (record_of meta.now body_len)) }
    ensures reads_back { IfOk result (λ bytes. record_in bytes.items ≡ Ok meta.now) }
    ensures small { IfOk result (λ bytes. vec_len bytes < 2 ^ 31) }
{
    let header = record_object(alloc, meta)?;
    let root = message_object(alloc, 3, header, body_len.cast_unsigned())?;
    laid_lengths();
    laid_reads_back();
    root_bytes(alloc, &root)
}

fn record_object(alloc: Global, meta: &RecordMeta) -> Result<FbObject, NoMemory>
    ensures laid { IfOk result (λ object. laid object ≡ record_laid (cast_unsigned w64 meta.now.length)
        (map unsigned_pair meta.now.nodes) (map unsigned_pair meta.now.buffers)) }
    ensures sound { IfOk result (λ object. IsSound object) }
    ensures fits { IfOk result (λ _. IsMeta meta.now) }
{
    let nodes = FbObject::of_structs(16, pairs_bytes(alloc, &meta.nodes)?);
    let buffers = FbObject::of_structs(16, pairs_bytes(alloc, &meta.buffers)?);
    let fields = vec![in alloc;
        FbField::Scalar {
            slot: 0,
            width: 8,
            value: meta.length.cast_unsigned()
        },
        FbField::Child {
            slot: 1,
            object: nodes
        },
        FbField::Child {
            slot: 2,
            object: buffers
        },
    ]?;
    Ok(FbObject::of_fields(fields))
}
