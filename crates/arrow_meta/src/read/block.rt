// Blocks and pairs of numbers, read out of vectors of structs.
ghost use Rattle.std.specs.Prelude.{◌≡◌, ◌<◌, ◌^◌, length, map, vec_len, IfOk};
ghost use Rattle.std.specs.List.{range_with_len};
ghost use Rattle.arrow_meta.specs.Looked.{Answers};
ghost use Rattle.arrow_meta.specs.Footer as spec;
ghost use Rattle.arrow_meta.specs.Message as message;

use crate::{Block, MetaError, Pairs};
use byteorder::{ByteOrder, LittleEndian};
use fb_bytes::{FbVector, Table};
use std::alloc::Global;
use sub_types::NoMemory;

/// The blocks in a slot of a footer (File.fbs, `Block`).
#[tactic(auto, unfolding(crate::specs::Footer::blocks_in))]
pub(crate) fn blocks(alloc: Global, footer: &Table<'_>, slot: u16) -> Result<Vec<Block>, MetaError>
    ensures blocks { Answers (λ blocks. blocks.items) result (spec.blocks_in footer.now slot) }
    ensures few { IfOk result (λ blocks. vec_len blocks < 2 ^ 27) }
{
    match footer.vector(slot, 24)? {
        None => Ok(Vec::new(alloc)),
        Some(vector) => Ok(vector_blocks(alloc, &vector)?),
    }
}

// The blocks of a vector.
fn vector_blocks(alloc: Global, vector: &FbVector<'_>) -> Result<Vec<Block>, NoMemory>
    requires { vector.now.width ≡ 24 }
    ensures blocks { IfOk result (λ blocks. blocks.items ≡ map (spec.block_at vector.now) (range_with_len 0 vector.now.count)) }
    ensures few { IfOk result (λ blocks. vec_len blocks ≡ vector.now.count) }
{
    let mut blocks = Vec::new(alloc);
    for i in 0..vector.len() {
        blocks.push(block_at(vector, i))?;
    }
    Ok(blocks)
}

#[tactic(auto, unfolding(crate::specs::Footer::block_at))]
fn block_at(vector: &FbVector<'_>, i: u32) -> Block
    requires width { vector.now.width ≡ 24 }
    requires within { i < vector.now.count }
    ensures { result ≡ spec.block_at vector.now i }
{
    block(vector.item(i))
}

fn block(bytes: &[u8]) -> Block
    requires { length bytes.now ≡ 24 }
    ensures { result ≡ spec.block_in bytes.now }
{
    let (_, meta_len) = bytes.split_at(8);
    let (_, body_len) = bytes.split_at(16);
    Block {
        offset: LittleEndian::read_i64(bytes),
        meta_len: LittleEndian::read_i32(meta_len),
        body_len: LittleEndian::read_i64(body_len),
    }
}

/// The pairs of numbers in a slot of a record batch (Message.fbs, `FieldNode` and `Buffer`).
#[tactic(auto, unfolding(crate::specs::Message::pairs_in))]
pub(crate) fn pairs(alloc: Global, batch: &Table<'_>, slot: u16) -> Result<Pairs, MetaError>
    ensures { Answers (λ pairs. pairs) result (message.pairs_in batch.now slot) }
{
    match batch.vector(slot, 16)? {
        None => Ok(Pairs::from_vec(Vec::new(alloc))),
        Some(vector) => Ok(vector_pairs(alloc, &vector)?),
    }
}

// The pairs of a vector.
fn vector_pairs(alloc: Global, vector: &FbVector<'_>) -> Result<Pairs, NoMemory>
    requires { vector.now.width ≡ 16 }
    ensures { IfOk result (λ pairs. pairs ≡ map (message.pair_at vector.now) (range_with_len 0 vector.now.count)) }
{
    let mut pairs = Vec::new(alloc);
    for i in 0..vector.len() {
        pairs.push(pair_at(vector, i))?;
    }
    Ok(Pairs::from_vec(pairs))
}

#[tactic(auto, unfolding(crate::specs::Message::pair_at))]
fn pair_at(vector: &FbVector<'_>, i: u32) -> (i64, i64)
    requires width { vector.now.width ≡ 16 }
    requires within { i < vector.now.count }
    ensures { result ≡ message.pair_at vector.now i }
{
    pair(vector.item(i))
}

fn pair(bytes: &[u8]) -> (i64, i64)
    requires { length bytes.now ≡ 16 }
    ensures { result ≡ message.pair_in bytes.now }
{
    let (_, second) = bytes.split_at(8);
    (
        LittleEndian::read_i64(bytes),
        LittleEndian::read_i64(second),
    )
}
