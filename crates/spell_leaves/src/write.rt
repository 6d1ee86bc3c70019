// Fields and messages written from their last byte to their first.
ghost use Rattle.std.specs.Prelude.{◌≡◌, [], ◌∷◌, ◌++◌, ◌<◌, ◌^◌, get_or, length, map, if◌then◌else◌, OnOk, IfOk};
ghost use Rattle.std.specs.Option.{option_to_list};
ghost use Rattle.pb_wire.specs.Records.{Bytes};
ghost use Rattle.pb_write.specs.Write.{message_bytes, packed_bytes, record_bytes, varint_bytes};
ghost use Rattle.plan_spell.specs.Held.{fields_by, packed, part_fields, truth_varint, unless_empty, unless_false, unless_none, unless_zero, whole_varint};
ghost use Rattle.plan_spell.specs.Spelled.{spelled_at};
ghost use Rattle.spell_leaves.specs.Seen.{block_records, messages_seen, part_seen, parts_seen, varint_records};

use crate::part::{HeldRef, MessagesRef, PartRef};
use crate::parts::parts_at;
use pb_write::Backwards;
use std::alloc::Global;
use sub_types::{ByteList, NoMemory};

// The bytes of one of the messages in front of what was written, where so many levels are left to it.
#[cycle(write)]
#[tactic(auto, using(crate::proofs::FrontLaws::message_put, crate::proofs::FrontLaws::no_level))]
fn write_message(
    out: &mut Backwards,
    alloc: Global,
    messages: MessagesRef,
    at: usize,
    levels: u32,
) -> Result<(), NoMemory>
    requires { at < length (messages_seen messages).nodes }
    ensures { OnOk result (out.new ≡ get_or (map (spelled_at levels (messages_seen messages.entry).shape) (messages_seen messages.entry).nodes) at [] ++ out.old) }
{
    if levels == 0 {
        return Ok(());
    }
    let parts = parts_at(alloc, messages, at)?;
    write_parts(out, alloc, parts.as_slice(), levels - 1)
}

// The records of fields, from the last field to the first.
#[cycle(write)]
#[tactic(auto, using(crate::proofs::FrontLaws::part_front, crate::proofs::FrontLaws::parts_begun))]
fn write_parts(
    out: &mut Backwards,
    alloc: Global,
    parts: &[PartRef],
    levels: u32,
) -> Result<(), NoMemory>
    ensures { OnOk result (out.new ≡ message_bytes (fields_by (spelled_at levels) (parts_seen parts.now)) ++ out.old) }
{
    let mut left = parts.len();
    while left > 0 {
        left -= 1;
        write_part(out, alloc, parts[left], levels)?;
    }
    Ok(())
}

/// The records of a field in front of what was written (Protocol Buffers encoding), where the messages in it may have so many
/// levels. Messages deeper than that are written empty. Only memory can be lacking, and then part of a record may stand there.
#[cycle(write)]
#[tactic(auto, using(crate::proofs::FrontLaws::presence_put))]
pub fn write_part(
    out: &mut Backwards,
    alloc: Global,
    part: PartRef,
    levels: u32,
) -> Result<(), NoMemory>
    ensures { OnOk result (out.new ≡ message_bytes (part_fields (spelled_at levels) (part_seen part.entry)) ++ out.old) }
{
    match part.held {
        HeldRef::Uint32(value) => write_uint32(out, part.number, value),
        HeldRef::Int32(value) => write_int32(out, part.number, value),
        HeldRef::Truth(value) => write_truth(out, part.number, value),
        HeldRef::Block(bytes) => write_block(out, part.number, bytes),
        HeldRef::Int32Member(value) => write_int32_member(out, part.number, value),
        HeldRef::Int64Member(value) => write_int64(out, part.number, value),
        HeldRef::TruthMember(value) => write_truth_member(out, part.number, value),
        HeldRef::BlockMember(bytes) => write_block_member(out, part.number, bytes),
        HeldRef::EmptyBlock(is_there) => write_empty(out, part.number, is_there),
        HeldRef::PackedUint32s(numbers) => write_packed_uint32s(out, part.number, numbers),
        HeldRef::PackedInt32s(numbers) => write_packed_int32s(out, part.number, numbers),
        HeldRef::Blocks(values) => write_blocks(out, part.number, values),
        HeldRef::Presence(is_there) => write_empty(out, part.number, is_there),
        HeldRef::Messages(messages) => write_messages(out, alloc, part.number, messages, levels),
    }
}

// A record for each of the messages, from the last to the first.
#[cycle(write)]
#[tactic(auto, using(crate::proofs::FrontLaws::message_front, crate::proofs::FrontLaws::messages_begun))]
fn write_messages(
    out: &mut Backwards,
    alloc: Global,
    number: u32,
    messages: MessagesRef,
    levels: u32,
) -> Result<(), NoMemory>
    ensures { OnOk result (out.new ≡ block_records number (map (spelled_at levels (messages_seen messages.entry).shape) (messages_seen messages.entry).nodes) ++ out.old) }
{
    let mut left = messages.len();
    while left > 0 {
        left -= 1;
        let before = out.len();
        write_message(out, alloc, messages, left, levels)?;
        out.close(number, before)?;
    }
    Ok(())
}

#[tactic(auto, using(crate::proofs::FrontLaws::one_varint, crate::proofs::FrontLaws::some_number))]
fn write_uint32(out: &mut Backwards, number: u32, value: u32) -> Result<(), NoMemory>
    ensures { OnOk result (out.new ≡ varint_records number (unless_none value) ++ out.old) }
{
    if value == 0 {
        Ok(())
    } else {
        out.number(number, u64::from(value))
    }
}

#[tactic(auto, using(crate::proofs::FrontLaws::one_varint, crate::proofs::FrontLaws::zero_put, crate::proofs::FrontLaws::other_number))]
fn write_int32(out: &mut Backwards, number: u32, value: &i32) -> Result<(), NoMemory>
    ensures { OnOk result (out.new ≡ varint_records number (map whole_varint (unless_zero value.now)) ++ out.old) }
{
    if *value == 0 {
        Ok(())
    } else {
        out.number(number, i64::from(*value).cast_unsigned())
    }
}

#[tactic(auto, using(crate::proofs::FrontLaws::one_varint, crate::proofs::FrontLaws::no_varint))]
fn write_int64(out: &mut Backwards, number: u32, value: Option<i64>) -> Result<(), NoMemory>
    ensures { OnOk result (out.new ≡ varint_records number (map whole_varint (option_to_list value)) ++ out.old) }
{
    match value {
        None => Ok(()),
        Some(value) => out.number(number, value.cast_unsigned()),
    }
}

#[tactic(auto, using(crate::proofs::FrontLaws::one_varint))]
fn write_int32_member(out: &mut Backwards, number: u32, value: &i32) -> Result<(), NoMemory>
    ensures { OnOk result (out.new ≡ varint_records number (whole_varint value.now ∷ []) ++ out.old) }
{
    out.number(number, i64::from(*value).cast_unsigned())
}

#[tactic(auto, using(crate::proofs::FrontLaws::one_varint))]
fn write_truth_member(out: &mut Backwards, number: u32, value: bool) -> Result<(), NoMemory>
    ensures { OnOk result (out.new ≡ varint_records number (truth_varint value ∷ []) ++ out.old) }
{
    out.number(number, truth_number(value))
}

#[tactic(auto, using(crate::proofs::FrontLaws::one_block))]
fn write_block_member(out: &mut Backwards, number: u32, bytes: &[u8]) -> Result<(), NoMemory>
    ensures { OnOk result (out.new ≡ block_records number (bytes.now ∷ []) ++ out.old) }
{
    write_bytes(out, number, bytes)
}

fn truth_number(value: bool) -> u64
    ensures { result ≡ truth_varint value }
{
    if value { 1 } else { 0 }
}

#[tactic(auto, using(crate::proofs::FrontLaws::one_varint, crate::proofs::FrontLaws::no_varint))]
fn write_truth(out: &mut Backwards, number: u32, value: bool) -> Result<(), NoMemory>
    ensures { OnOk result (out.new ≡ varint_records number (map truth_varint (unless_false value)) ++ out.old) }
{
    if value { out.number(number, 1) } else { Ok(()) }
}

// A record with these bytes.
fn write_bytes(out: &mut Backwards, number: u32, bytes: &[u8]) -> Result<(), NoMemory>
    ensures { OnOk result (out.new ≡ record_bytes (record { number = number; content = Bytes bytes.now }) ++ out.old) }
{
    let before = out.len();
    out.bytes(bytes)?;
    out.close(number, before)
}

#[tactic(auto, using(crate::proofs::FrontLaws::one_block, crate::proofs::FrontLaws::no_block, crate::proofs::FrontLaws::some_block))]
fn write_block(out: &mut Backwards, number: u32, bytes: &[u8]) -> Result<(), NoMemory>
    ensures { OnOk result (out.new ≡ block_records number (unless_empty bytes.now) ++ out.old) }
{
    if bytes.is_empty() {
        Ok(())
    } else {
        write_bytes(out, number, bytes)
    }
}

// An empty block where it is there.
#[tactic(auto, using(crate::proofs::FrontLaws::one_block, crate::proofs::FrontLaws::no_block))]
fn write_empty(out: &mut Backwards, number: u32, is_there: bool) -> Result<(), NoMemory>
    ensures { OnOk result (out.new ≡ block_records number (if is_there then [] ∷ [] else []) ++ out.old) }
{
    if is_there {
        write_bytes(out, number, &[])
    } else {
        Ok(())
    }
}

// A record for each of the blocks, from the last to the first.
#[tactic(auto, using(crate::proofs::FrontLaws::block_front, crate::proofs::FrontLaws::blocks_begun))]
fn write_blocks(out: &mut Backwards, number: u32, blocks: &[ByteList]) -> Result<(), NoMemory>
    ensures { OnOk result (out.new ≡ block_records number blocks.now ++ out.old) }
{
    let mut left = blocks.len();
    while left > 0 {
        left -= 1;
        write_bytes(out, number, blocks[left].bytes())?;
    }
    Ok(())
}

// Numbers in one block, from the last to the first; none without numbers.
#[tactic(auto, using(crate::proofs::FrontLaws::one_block, crate::proofs::FrontLaws::no_block, crate::proofs::FrontLaws::some_packed))]
fn write_packed_uint32s(out: &mut Backwards, number: u32, numbers: &[u32]) -> Result<(), NoMemory>
    ensures { OnOk result (out.new ≡ block_records number (packed numbers.now) ++ out.old) }
{
    if numbers.is_empty() {
        return Ok(());
    }
    let before = out.len();
    put_uint32s(out, numbers)?;
    out.close(number, before)
}

fn put_uint32s(out: &mut Backwards, numbers: &[u32]) -> Result<(), NoMemory>
    ensures { OnOk result (out.new ≡ packed_bytes numbers.now ++ out.old) }
{
    let mut left = numbers.len();
    while left > 0 {
        left -= 1;
        out.varint(u64::from(numbers[left]))?;
    }
    Ok(())
}

#[tactic(auto, using(crate::proofs::FrontLaws::int32s_put))]
fn write_packed_int32s(out: &mut Backwards, number: u32, numbers: &[i32]) -> Result<(), NoMemory>
    ensures { OnOk result (out.new ≡ block_records number (packed (map whole_varint numbers.now)) ++ out.old) }
{
    if numbers.is_empty() {
        return Ok(());
    }
    let before = out.len();
    put_int32s(out, numbers)?;
    out.close(number, before)
}

#[tactic(auto, using(crate::proofs::FrontLaws::int32_front, crate::proofs::FrontLaws::int32s_begun))]
fn put_int32s(out: &mut Backwards, numbers: &[i32]) -> Result<(), NoMemory>
    ensures { OnOk result (out.new ≡ packed_bytes (map whole_varint numbers.now) ++ out.old) }
{
    let mut left = numbers.len();
    while left > 0 {
        left -= 1;
        put_int32(out, &numbers[left])?;
    }
    Ok(())
}

fn put_int32(out: &mut Backwards, number: &i32) -> Result<(), NoMemory>
    ensures { OnOk result (out.new ≡ varint_bytes (whole_varint number.now) ++ out.old) }
{
    out.varint(i64::from(*number).cast_unsigned())
}
