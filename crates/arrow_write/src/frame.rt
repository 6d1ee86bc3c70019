// What stands around the record batches of a file (Arrow columnar format, "IPC File Format").
ghost use Rattle.std.specs.Prelude.{◌≡◌, ◌≤◌, ◌<◌, ◌^◌, ◌++◌, IfOk, OnOk, length, map, vec_len};
ghost use Rattle.std.specs.List.{sum_by};
ghost use Rattle.fb_bytes.specs.Layout.{buffer_of};
ghost use Rattle.arrow_meta.specs.File.{file_head, framed};
ghost use Rattle.arrow_meta.specs.Messages.{footer_laid};
ghost use Rattle.arrow_meta.specs.Meta.{place_of};
ghost use Rattle.arrow_write.specs.Pieces.{ended};

use arrow_meta::{Block, write_footer, write_schema_message};
use std::alloc::Global;
use sub_types::{ByteList, NoMemory, Ty};

// Adds a message: the mark, the size of its metadata, the metadata and the body.
pub(crate) fn put_message(out: &mut Vec<u8>, metadata: &[u8], body: &[u8]) -> Result<(), NoMemory>
    requires { length metadata.now < 2 ^ 32 }
    ensures { OnOk result (out.new.items ≡ out.old.items ++ framed metadata.now body.now) }
{
    // Room for all at once.
    out.reserve(body.len().saturating_add(metadata.len() + 8))?;
    out.extend_from_slice(&[255; 4])?;
    out.extend_from_slice(&(metadata.len() as u32).to_le_bytes())?;
    out.extend_from_slice(metadata)?;
    out.extend_from_slice(body)?;
    Ok(())
}

// The magic with its padding, and the schema message.
#[tactic(auto, unfolding(arrow_meta::specs::File::file_head))]
pub(crate) fn head_bytes(
    alloc: Global,
    names: &[ByteList],
    types: &[Ty],
) -> Result<Vec<u8>, NoMemory>
    requires same_count { length names.now ≡ length types.now }
    requires few { length names.now ≤ 1024 }
    requires short { sum_by length names.now ≤ 16777216 }
    ensures bytes { IfOk result (λ bytes. bytes.items ≡ file_head names.now types.now) }
    ensures small { IfOk result (λ bytes. vec_len bytes < 2 ^ 32) }
{
    let metadata = write_schema_message(alloc, names, types)?;
    let mut out = Vec::new(alloc);
    out.extend_from_slice(b"ARROW1")?;
    out.extend_from_slice(&[0; 2])?;
    put_message(&mut out, &metadata, &[])?;
    Ok(out)
}

// The end mark, the footer, its size and the magic.
pub(crate) fn tail_bytes(
    alloc: Global,
    names: &[ByteList],
    types: &[Ty],
    blocks: &[Block],
) -> Result<Vec<u8>, NoMemory>
    requires same_count { length names.now ≡ length types.now }
    requires few { length names.now ≤ 1024 }
    requires short { sum_by length names.now ≤ 16777216 }
    requires few_blocks { length blocks.now ≤ 2 ^ 26 }
    ensures { IfOk result (λ bytes. bytes.items ≡ ended (buffer_of (footer_laid names.now types.now (map place_of blocks.now)))) }
{
    let footer = write_footer(alloc, names, types, blocks)?;
    let mut out = Vec::new(alloc);
    out.extend_from_slice(&[255; 4])?;
    out.extend_from_slice(&[0; 4])?;
    out.extend_from_slice(&footer)?;
    out.extend_from_slice(&(footer.len() as u32).to_le_bytes())?;
    out.extend_from_slice(b"ARROW1")?;
    Ok(out)
}
