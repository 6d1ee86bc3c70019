// The structs of messages and footers as bytes: pairs of numbers, and blocks.
ghost use Rattle.std.specs.Prelude.{◌≡◌, ◌++◌, OnOk, IfOk, map};
ghost use Rattle.std.specs.List.{flat_map, All};
ghost use Rattle.std.specs.Int.{w32, w64, cast_unsigned};
ghost use Rattle.byteorder.specs.Endian.{little_bytes};
ghost use Rattle.fb_bytes.specs.Object.{AreStructs};
ghost use Rattle.arrow_meta.specs.Messages.{pair_bytes, block_bytes};
ghost use Rattle.arrow_meta.specs.Meta.{unsigned_pair, place_of};
ghost use Rattle.arrow_meta.specs.Written.{IsPair, IsBlock};

use crate::{Block, Pairs};
use std::alloc::Global;
use sub_types::{ByteList, NoMemory};

// Two numbers of eight bytes for each pair.
pub(crate) fn pairs_bytes(alloc: Global, pairs: &Pairs) -> Result<ByteList, NoMemory>
    ensures bytes { IfOk result (λ bytes. bytes ≡ flat_map pair_bytes (map unsigned_pair pairs.now)) }
    ensures structs { IfOk result (λ bytes. AreStructs 16 bytes) }
    ensures fits { IfOk result (λ _. All IsPair pairs.now) }
{
    let mut out = Vec::new(alloc);
    for pair in pairs.pairs() {
        put_pair(&mut out, pair)?;
    }
    Ok(ByteList::from_vec(out))
}

fn put_pair(out: &mut Vec<u8>, pair: &(i64, i64)) -> Result<(), NoMemory>
    ensures bytes { OnOk result (out.new.items ≡ out.old.items ++ pair_bytes (unsigned_pair pair.now)) }
    ensures fits { OnOk result (IsPair pair.now) }
{
    put_i64(out, pair.0)?;
    put_i64(out, pair.1)?;
    Ok(())
}

// The bytes of each block, one after the other.
pub(crate) fn blocks_bytes(alloc: Global, blocks: &[Block]) -> Result<ByteList, NoMemory>
    ensures bytes { IfOk result (λ bytes. bytes ≡ flat_map block_bytes (map place_of blocks.now)) }
    ensures structs { IfOk result (λ bytes. AreStructs 24 bytes) }
    ensures fits { IfOk result (λ _. All IsBlock blocks.now) }
{
    let mut out = Vec::new(alloc);
    for block in blocks {
        put_block(&mut out, block)?;
    }
    Ok(ByteList::from_vec(out))
}

fn put_block(out: &mut Vec<u8>, block: &Block) -> Result<(), NoMemory>
    ensures bytes { OnOk result (out.new.items ≡ out.old.items ++ block_bytes (place_of block.now)) }
    ensures fits { OnOk result (IsBlock block.now) }
{
    put_i64(out, block.offset)?;
    put_i32(out, block.meta_len)?;
    put_i32(out, 0)?;
    put_i64(out, block.body_len)?;
    Ok(())
}

fn put_i64(out: &mut Vec<u8>, value: i64) -> Result<(), NoMemory>
    ensures { OnOk result (out.new.items ≡ out.old.items ++ little_bytes 8 (cast_unsigned w64 value)) }
{
    out.extend_from_slice(&value.to_le_bytes())?;
    Ok(())
}

fn put_i32(out: &mut Vec<u8>, value: i32) -> Result<(), NoMemory>
    ensures { OnOk result (out.new.items ≡ out.old.items ++ little_bytes 4 (cast_unsigned w32 value)) }
{
    out.extend_from_slice(&value.to_le_bytes())?;
    Ok(())
}
