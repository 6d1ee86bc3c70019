// Messages (Message.fbs, `Message`), and the message of a schema.
ghost use Rattle.std.specs.Prelude.{◌≡◌, ◌≤◌, ◌<◌, ◌^◌, IfOk, length, vec_len};
ghost use Rattle.std.specs.List.{sum_by};
ghost use Rattle.fb_bytes.specs.Layout.{buffer_of};
ghost use Rattle.fb_bytes.specs.Object.{laid, buffer, IsSound, IsSoundTable};
ghost use Rattle.arrow_meta.specs.Messages.{message_laid, schema_message};

use crate::write::schema::schema_object;
use fb_bytes::{FbField, FbObject, fb_write, laid_lengths};
use std::alloc::Global;
use sub_types::{ByteList, NoMemory, Ty};

/// The metadata of the message that begins a file: its schema, with a column for each name and type
/// (Arrow columnar format, "Schema message"). The mark and the size before it are not written.
pub fn write_schema_message(
    alloc: Global,
    names: &[ByteList],
    types: &[Ty],
) -> Result<Vec<u8>, NoMemory>
    requires same_count { length names.now ≡ length types.now }
    requires few { length names.now ≤ 1024 }
    requires short { sum_by length names.now ≤ 16777216 }
    ensures bytes { IfOk result (λ bytes. bytes.items ≡ buffer_of (schema_message names.now types.now)) }
    ensures small { IfOk result (λ bytes. vec_len bytes < 2 ^ 31) }
{
    let header = schema_object(alloc, names, types)?;
    let root = message_object(alloc, 1, header, 0)?;
    laid_lengths();
    root_bytes(alloc, &root)
}

// A message of metadata version V5 with its header, whose tag is that of the union MessageHeader.
pub(crate) fn message_object(
    alloc: Global,
    tag: u8,
    header: FbObject,
    body_len: u64,
) -> Result<FbObject, NoMemory>
    requires { IsSound header }
    ensures laid { IfOk result (λ object. laid object ≡ message_laid tag (laid header) body_len) }
    ensures sound { IfOk result (λ object. IsSoundTable object) }
{
    let fields = vec![in alloc;
        FbField::Scalar {
            slot: 0,
            width: 2,
            value: 4
        },
        FbField::Scalar {
            slot: 1,
            width: 1,
            value: u64::from(tag)
        },
        FbField::Child {
            slot: 2,
            object: header
        },
        FbField::Scalar {
            slot: 3,
            width: 8,
            value: body_len
        },
    ]?;
    Ok(FbObject::of_fields(fields))
}

// The buffer of a root table.
pub(crate) fn root_bytes(alloc: Global, root: &FbObject) -> Result<Vec<u8>, NoMemory>
    requires table { IsSoundTable root.now }
    requires short { length (buffer root.now) < 2 ^ 31 }
    ensures bytes { IfOk result (λ bytes. bytes.items ≡ buffer root.now) }
    ensures small { IfOk result (λ bytes. vec_len bytes < 2 ^ 31) }
{
    fb_write(alloc, root)
}
