// The footer of a file (File.fbs, `Footer`).
ghost use Rattle.std.specs.Prelude.{◌≡◌, ◌≤◌, ◌<◌, ◌^◌, IfOk, Ok, length, map, vec_len};
ghost use Rattle.std.specs.List.{sum_by, All};
ghost use Rattle.fb_bytes.specs.Layout.{buffer_of};
ghost use Rattle.fb_bytes.specs.Object.{laid, IsSoundTable};
ghost use Rattle.arrow_meta.specs.Messages.{footer_laid};
ghost use Rattle.arrow_meta.specs.Meta.{place_of};
ghost use Rattle.arrow_meta.specs.Footer.{footer_in};
ghost use Rattle.arrow_meta.specs.Written.{IsBlock, written_footer};
ghost use Rattle.sub_types.specs.Kind.{IsKind};

use crate::Block;
use crate::write::message::root_bytes;
use crate::write::schema::schema_object;
use crate::write::structs::blocks_bytes;
use fb_bytes::{FbField, FbObject, laid_lengths, laid_reads_back};
use std::alloc::Global;
use sub_types::{ByteList, NoMemory, Ty};

/// The footer: the schema, with a column for each name and type, and where the record batches stand
/// (Arrow columnar format, "IPC File Format"). The size and the magic behind it are not written.
pub fn write_footer(
    alloc: Global,
    names: &[ByteList],
    types: &[Ty],
    blocks: &[Block],
) -> Result<Vec<u8>, NoMemory>
    requires same_count { length names.now ≡ length types.now }
    requires few { length names.now ≤ 1024 }
    requires short { sum_by length names.now ≤ 16777216 }
    requires few_blocks { length blocks.now ≤ 2 ^ 26 }
    ensures bytes { IfOk result (λ bytes. bytes.items ≡ buffer_of (footer_laid names.now types.now (map place_of blocks.now))) }
    ensures reads_back { All (λ ty. IsKind ty.kind) types.now
        → IfOk result (λ bytes. footer_in bytes.items ≡ Ok (written_footer names.now types.now blocks.now)) }
    ensures small { IfOk result (λ bytes. vec_len bytes < 2 ^ 31) }
{
    let root = footer_object(alloc, names, types, blocks)?;
    laid_lengths();
    laid_reads_back();
    root_bytes(alloc, &root)
}

fn footer_object(
    alloc: Global,
    names: &[ByteList],
    types: &[Ty],
    blocks: &[Block],
) -> Result<FbObject, NoMemory>
    requires { length names.now ≡ length types.now }
    ensures laid { IfOk result (λ object. laid object ≡ footer_laid names.now types.now (map place_of blocks.now)) }
    ensures sound { IfOk result (λ object. IsSoundTable object) }
    ensures fits { IfOk result (λ _. All IsBlock blocks.now) }
{
    let schema = schema_object(alloc, names, types)?;
    let dictionaries = FbObject::of_structs(24, ByteList::from_vec(Vec::new(alloc)));
    let batches = FbObject::of_structs(24, blocks_bytes(alloc, blocks)?);
    let fields = vec![in alloc;
        FbField::Scalar {
            slot: 0,
            width: 2,
            value: 4
        },
        FbField::Child {
            slot: 1,
            object: schema
        },
        FbField::Child {
            slot: 2,
            object: dictionaries
        },
        FbField::Child {
            slot: 3,
            object: batches
        },
    ]?;
    Ok(FbObject::of_fields(fields))
}
