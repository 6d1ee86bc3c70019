// Fields by their kinds, what stands in optional ones, and lists of them.
ghost use Rattle.std.specs.Prelude.{◌≡◌, ◌<◌, [], ◌∷◌, IfOk, get_or, length};
ghost use Rattle.std.specs.Option.{option_to_list};
ghost use Rattle.std.specs.Mem.{FitsInMemory};
ghost use Rattle.plan_spell.specs.Held as held;
ghost use Rattle.spell_leaves.specs.Seen.{messages_seen, part_seen};

use crate::part::{HeldRef, MessagesRef, PartRef};
use plan_leaves::Boxed;
use std::alloc::Global;
use std::slice;
use sub_types::{ByteList, NoMemory};

/// A number that is no member of a oneof.
pub fn uint32<'a>(number: u32, value: u32) -> PartRef<'a>
    ensures { part_seen result ≡ held.uint32 number value }
{
    PartRef {
        number,
        held: HeldRef::Uint32(value),
    }
}

pub(crate) fn int32<'a>(number: u32, value: &'a i32) -> PartRef<'a>
    ensures { part_seen result ≡ held.int32 number value.now }
{
    PartRef {
        number,
        held: HeldRef::Int32(value),
    }
}

pub(crate) fn truth<'a>(number: u32, value: bool) -> PartRef<'a>
    ensures { part_seen result ≡ held.truth number value }
{
    PartRef {
        number,
        held: HeldRef::Truth(value),
    }
}

/// Bytes that are no member of a oneof.
pub fn block<'a>(number: u32, bytes: &'a [u8]) -> PartRef<'a>
    ensures { part_seen result ≡ held.block number bytes.now }
{
    PartRef {
        number,
        held: HeldRef::Block(bytes),
    }
}

/// Texts of a repeated field.
pub fn blocks<'a>(number: u32, blocks: &'a [ByteList]) -> PartRef<'a>
    ensures { part_seen result ≡ held.blocks number blocks.now }
{
    PartRef {
        number,
        held: HeldRef::Blocks(blocks),
    }
}

/// Bytes that are a member of a oneof.
pub fn block_member<'a>(number: u32, bytes: &'a [u8]) -> PartRef<'a>
    ensures { part_seen result ≡ held.blocks number (bytes.now ∷ []) }
{
    PartRef {
        number,
        held: HeldRef::BlockMember(bytes),
    }
}

/// The messages of a field.
pub fn messages<'a>(number: u32, messages: MessagesRef<'a>) -> PartRef<'a>
    ensures { part_seen result ≡ record { number = number; held = held.Messages (messages_seen messages.entry).shape (messages_seen messages.entry).nodes } }
{
    PartRef {
        number,
        held: HeldRef::Messages(messages),
    }
}

/// A message of which only the presence is read.
pub fn presence<'a>(number: u32, is_there: bool) -> PartRef<'a>
    ensures { part_seen result ≡ held.presence number is_there }
{
    PartRef {
        number,
        held: HeldRef::Presence(is_there),
    }
}

/// What stands in an optional place.
pub fn optional<T>(value: &Option<T>) -> &[T]
    requires { FitsInMemory T.row }
    ensures { result.now ≡ option_to_list value.now }
{
    match value {
        None => &[],
        Some(value) => slice::from_ref(value),
    }
}

/// What stands boxed in an optional place.
pub fn boxed<T>(value: &Option<Boxed<T>>) -> &[T]
    requires { FitsInMemory T.row }
    ensures { result.now ≡ option_to_list value.now }
{
    match value {
        None => &[],
        Some(value) => slice::from_ref(value.get()),
    }
}

/// The item at a place.
pub(crate) fn item_at<T>(items: &[T], at: usize) -> &T
    requires { at < length items.now }
    ensures { result.now ≡ get_or items.now at result.now }
{
    &items[at]
}

/// A list of these items.
pub fn listed<T: Drop, const N: usize>(alloc: Global, items: [T; N]) -> Result<Vec<T>, NoMemory>
    ensures { IfOk result (λ list. list.items ≡ items) }
{
    Ok(Vec::from_array(alloc, items)?)
}
