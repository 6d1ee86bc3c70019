// The message of a record batch with its body (Arrow columnar format, "Encapsulated message format").
ghost use Rattle.std.specs.Prelude.{◌≡◌, ◌≤◌, [], List, IfOk, length, vec_len};
ghost use Rattle.sub_types.specs.declared.value.Value.{Value};
ghost use Rattle.batch.specs.BatchRows.{types_of, rows_of};
ghost use Rattle.sub_types.specs.declared.kind.Ty.{Ty};
ghost use Rattle.arrow_write.specs.Bodies.{HasRows};
ghost use Rattle.arrow_write.specs.Progress.{IsMessage};

use crate::body::Body;
use crate::encoding::{batch_body, empty_body};
use crate::frame::put_message;
use arrow_meta::{Pairs, RecordMeta, write_record_message};
use batch::Batch;
use std::alloc::Global;
use sub_types::{NoMemory, Ty};

// A message, and the lengths of its metadata and its body.
#[derive(Drop)]
pub(crate) struct Message {
    pub(crate) bytes: Vec<u8>,
    pub(crate) meta_len: u32,
    pub(crate) body_len: u64,
}

// The message of a batch.
pub(crate) fn batch_message(alloc: Global, batch: &Batch) -> Result<Message, NoMemory>
    requires { vec_len batch.now.columns ≤ 1024 }
    ensures { IfOk result (IsMessage (types_of batch.now) (rows_of batch.now)) }
{
    message_of(alloc, batch.rows, batch_body(alloc, batch)?)
}

// The message of a batch of these types without rows.
pub(crate) fn empty_message(alloc: Global, types: &[Ty]) -> Result<Message, NoMemory>
    requires { length types.now ≤ 1024 }
    ensures { IfOk result (IsMessage types.now []) }
{
    message_of(alloc, 0, empty_body(alloc, types)?)
}

fn message_of(alloc: Global, rows: u64, body: Body) -> Result<Message, NoMemory>
    requires few_nodes { vec_len body.nodes ≤ 1024 }
    requires few_buffers { vec_len body.places ≤ 3072 }
    ensures { IfOk result (λ message. (types : List Ty) (list : List (List Value)) → length list ≡ rows → HasRows types list body → IsMessage types list message) }
{
    let body_len = body.bytes.len() as u64;
    let meta = RecordMeta {
        length: rows.cast_signed(),
        nodes: Pairs::from_vec(body.nodes),
        buffers: Pairs::from_vec(body.places),
    };
    let metadata = write_record_message(alloc, &meta, body_len.cast_signed())?;
    let mut bytes = Vec::new(alloc);
    put_message(&mut bytes, &metadata, &body.bytes)?;
    Ok(Message {
        bytes,
        meta_len: metadata.len() as u32,
        body_len,
    })
}
