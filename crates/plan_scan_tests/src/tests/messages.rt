// The payload rules, on messages that were worked out by hand.
ghost use Rattle.std.specs.Prelude.{◌≡◌, IfSome};

use plan_scan::{Choice, Merged, Message, OneOf, Shape};
use std::alloc::Global;
use sub_types::{ByteList, NoMemory, Word};
use test_bytes::THREE_ROWS_PLAN;

// The plan that the bytes are.
fn plan<'a>(bytes: &'a [u8]) -> Option<Message<'a>>
    ensures { IfSome result (λ plan. plan.shape ≡ Shape.Plan) }
{
    Message::plan(bytes).ok()
}

// The first URI of a plan, whose fields are an anchor 1 and a text 2.
fn first_uri<'a>(bytes: &'a [u8]) -> Option<Message<'a>>
    ensures { IfSome result (λ uri. uri.shape ≡ Shape.ExtensionUri) }
{
    let mut uris = plan(bytes)?.children(1, Shape::ExtensionUri);
    uris.next()
}

// The field 1 of the first URI as a number of each type.
fn numbers_of(bytes: &[u8]) -> Option<(u32, i32, i64, bool)> {
    let uri = first_uri(bytes)?;
    Some((uri.uint32(1), uri.int32(1), uri.int64(1), uri.boolean(1)))
}

#[test]
fn numbers_of_each_type(rt: HostRuntime) {
    let uris: [(&[u8], (u32, i32, i64, bool)); 6] = [
        // 5, then 7, then as four bytes, as eight, and as a block, which are skipped.
        (
            &[
                0x0A, 0x15, 0x08, 0x05, 0x08, 0x07, 0x0D, 0x01, 0x02, 0x03, 0x04, 0x09, 0x01, 0x02,
                0x03, 0x04, 0x05, 0x06, 0x07, 0x08, 0x0A, 0x01, 0x09,
            ],
            (7, 7, 7, true),
        ),
        // -1 in ten bytes.
        (
            &[
                0x0A, 0x0B, 0x08, 0xFF, 0xFF, 0xFF, 0xFF, 0xFF, 0xFF, 0xFF, 0xFF, 0xFF, 0x01,
            ],
            (4_294_967_295, -1, -1, true),
        ),
        // 2^32 + 1.
        (
            &[0x0A, 0x06, 0x08, 0x81, 0x80, 0x80, 0x80, 0x10],
            (1, 1, 4_294_967_297, true),
        ),
        (&[0x0A, 0x02, 0x08, 0x02], (2, 2, 2, true)),
        (&[0x0A, 0x02, 0x08, 0x00], (0, 0, 0, false)),
        // Absent, beside another field.
        (&[0x0A, 0x02, 0x18, 0x05], (0, 0, 0, false)),
    ];
    for (bytes, want) in uris {
        assert!(rt; numbers_of(bytes) == Some(want));
    }
}

// Whether the field 2 of the first URI has this last text, and so many texts.
fn has_texts(alloc: Global, bytes: &[u8], last: &str, count: usize) -> bool {
    let Some(uri) = first_uri(bytes) else {
        return false;
    };
    uri.has(2) == (count > 0)
        && uri.bytes(2) == last.as_bytes()
        && is_list(uri.byte_list(alloc, 2), last)
        && is_text(uri.text(alloc, 2), last)
        && are_so_many(uri.texts(alloc, 2), count)
}

fn is_list(found: Result<ByteList, NoMemory>, want: &str) -> bool {
    match found {
        Ok(list) => list.bytes() == want.as_bytes(),
        Err(_) => false,
    }
}

fn is_text(found: Result<Word, NoMemory>, want: &str) -> bool {
    match found {
        Ok(word) => word.text() == want,
        Err(_) => false,
    }
}

fn are_so_many(found: Result<Vec<ByteList>, NoMemory>, count: usize) -> bool {
    match found {
        Ok(texts) => texts.len() == count,
        Err(_) => false,
    }
}

#[test]
fn last_text_counts(rt: HostRuntime) {
    // The texts `a` and `bc` with a field between them that isn't named.
    let two = [
        0x0A, 0x0B, 0x12, 0x01, 0x61, 0x1A, 0x02, 0xC3, 0x28, 0x12, 0x02, 0x62, 0x63,
    ];
    assert!(rt; has_texts(rt.alloc(), &two, "bc", 2));
    // The text as a number, which is skipped.
    assert!(rt; has_texts(rt.alloc(), &[0x0A, 0x02, 0x10, 0x05], "", 0));
    assert!(rt; has_texts(rt.alloc(), &[0x0A, 0x02, 0x12, 0x00], "", 1));
}

// Whether the field 5 of the first URI has these numbers.
fn has_numbers(alloc: Global, bytes: &[u8], signed: &[i32], unsigned: &[u32]) -> bool {
    let Some(uri) = first_uri(bytes) else {
        return false;
    };
    are_signed(uri.int32s(alloc, 5), signed) && are_unsigned(uri.uint32s(alloc, 5), unsigned)
}

fn are_signed(found: Result<Vec<i32>, NoMemory>, want: &[i32]) -> bool {
    match found {
        Ok(numbers) => numbers.as_slice() == want,
        Err(_) => false,
    }
}

fn are_unsigned(found: Result<Vec<u32>, NoMemory>, want: &[u32]) -> bool {
    match found {
        Ok(numbers) => numbers.as_slice() == want,
        Err(_) => false,
    }
}

#[test]
fn packed_and_unpacked_numbers_mix(rt: HostRuntime) {
    // 1; then 2, 150 and -1 packed; then 3; then four bytes, which are skipped; then none packed.
    let bytes = [
        0x0A, 0x1A, 0x28, 0x01, 0x2A, 0x0D, 0x02, 0x96, 0x01, 0xFF, 0xFF, 0xFF, 0xFF, 0xFF, 0xFF,
        0xFF, 0xFF, 0xFF, 0x01, 0x28, 0x03, 0x2D, 0x01, 0x02, 0x03, 0x04, 0x2A, 0x00,
    ];
    let unsigned = [1, 2, 150, 4_294_967_295, 3];
    assert!(rt; has_numbers(rt.alloc(), &bytes, &[1, 2, 150, -1, 3], &unsigned));
    assert!(rt; has_numbers(rt.alloc(), &[0x0A, 0x00], &[], &[]));
}

// The root of the first relation of a plan, whose fields are an input 1 and names 2.
fn first_root<'a>(alloc: Global, bytes: &'a [u8]) -> Option<Merged<'a>>
    ensures { IfSome result (λ root. root.shape ≡ Shape.RelRoot) }
{
    let mut relations = plan(bytes)?.children(3, Shape::PlanRel);
    let (number, won) = relations.next()?.oneof(OneOf::PlanRelType)?;
    if number != 2 {
        return None;
    }
    won.merged(alloc, 2, Shape::RelRoot).ok()?
}

// Whether the first relation of a plan is a root with just these names.
fn has_names(alloc: Global, bytes: &[u8], names: &[&[u8]]) -> bool {
    match first_root(alloc, bytes) {
        Some(root) => are_names(root.message().texts(alloc, 2), names),
        None => false,
    }
}

fn are_names(found: Result<Vec<ByteList>, NoMemory>, names: &[&[u8]]) -> bool {
    let Ok(found) = found else {
        return false;
    };
    if found.len() != names.len() {
        return false;
    }
    for (name, want) in found.iter().zip(names) {
        if name.bytes() != *want {
            return false;
        }
    }
    true
}

fn has_no_root(alloc: Global, bytes: &[u8]) -> bool {
    first_root(alloc, bytes).is_none()
}

#[test]
fn singular_messages_are_merged(rt: HostRuntime) {
    // A root in three records, the second empty: the names `a` and `b`, none, and the name `c`.
    let bytes = [
        0x1A, 0x0F, 0x12, 0x06, 0x12, 0x01, 0x61, 0x12, 0x01, 0x62, 0x12, 0x00, 0x12, 0x03, 0x12,
        0x01, 0x63,
    ];
    assert!(rt; has_names(rt.alloc(), &bytes, &[b"a", b"b", b"c"]));
    // A root that is there and empty, and none.
    assert!(rt; has_names(rt.alloc(), &[0x1A, 0x02, 0x12, 0x00], &[]));
    assert!(rt; has_no_root(rt.alloc(), &[0x1A, 0x00]));
}

#[test]
fn last_member_wins(rt: HostRuntime) {
    // Roots with the names `a` and `b`; a relation; roots with the names `c` and `d`.
    let bytes = [
        0x1A, 0x16, 0x12, 0x03, 0x12, 0x01, 0x61, 0x12, 0x03, 0x12, 0x01, 0x62, 0x0A, 0x00, 0x12,
        0x03, 0x12, 0x01, 0x63, 0x12, 0x03, 0x12, 0x01, 0x64,
    ];
    assert!(rt; has_names(rt.alloc(), &bytes, &[b"c", b"d"]));
    // A relation as a number, and another field, between two roots: neither is a member.
    let skipped = [
        0x1A, 0x0E, 0x12, 0x03, 0x12, 0x01, 0x61, 0x08, 0x05, 0x1A, 0x00, 0x12, 0x03, 0x12, 0x01,
        0x62,
    ];
    assert!(rt; has_names(rt.alloc(), &skipped, &[b"a", b"b"]));
    // A relation last.
    let relation = [0x1A, 0x04, 0x12, 0x00, 0x0A, 0x00];
    assert!(rt; has_no_root(rt.alloc(), &relation));
}

// The number of the winner among the members of the first relation, and how many names its read has: 0 where it isn't one.
fn relation_of(alloc: Global, bytes: &[u8]) -> Option<(u32, usize)> {
    let root = first_root(alloc, bytes)?;
    match root.message().merged(alloc, 1, Shape::Rel) {
        Ok(Some(relation)) => relation_and_names(alloc, &relation),
        _ => None,
    }
}

fn relation_and_names(alloc: Global, relation: &Merged<'_>) -> Option<(u32, usize)>
    requires { relation.now.shape ≡ Shape.Rel }
{
    let (number, won) = relation.message().oneof(OneOf::RelType)?;
    match won.merged(alloc, 1, Shape::ReadRel) {
        Ok(Some(read)) => Some((number, names_of(alloc, &read)?)),
        _ => Some((number, 0)),
    }
}

// How many names the schema of a read has.
fn names_of(alloc: Global, read: &Merged<'_>) -> Option<usize>
    requires { read.now.shape ≡ Shape.ReadRel }
{
    match read.message().merged(alloc, 2, Shape::NamedStruct) {
        Ok(Some(schema)) => count_of(schema.message().texts(alloc, 1)),
        _ => Some(0),
    }
}

fn count_of(texts: Result<Vec<ByteList>, NoMemory>) -> Option<usize> {
    match texts {
        Ok(texts) => Some(texts.len()),
        Err(_) => None,
    }
}

// The same, read as a choice, and how many records of a schema the winner has.
fn choice_of(alloc: Global, bytes: &[u8]) -> Option<(u32, usize)> {
    let root = first_root(alloc, bytes)?;
    match root.message().choice_at(alloc, 1, OneOf::RelType) {
        Ok(Some(choice)) => winner_and_records(alloc, &choice),
        _ => None,
    }
}

fn winner_and_records(alloc: Global, choice: &Choice<'_>) -> Option<(u32, usize)> {
    match choice.winner() {
        Some((number, Some(message))) => Some((number, count_of(message.texts(alloc, 2))?)),
        Some((number, None)) => Some((number, 0)),
        None => None,
    }
}

#[test]
fn the_second_read_alone(rt: HostRuntime) {
    // With each, how many records the schema of its winner is in.
    let plans: [(&[u8], (u32, usize), usize); 5] = [
        (&THREE_ROWS_PLAN, (1, 1), 1),
        // A read of the names `a` and `b`, a filter, and a read of the name `c`.
        (
            &[
                0x1A, 0x17, 0x12, 0x15, 0x0A, 0x13, 0x0A, 0x08, 0x12, 0x06, 0x0A, 0x01, 0x61, 0x0A,
                0x01, 0x62, 0x12, 0x00, 0x0A, 0x05, 0x12, 0x03, 0x0A, 0x01, 0x63,
            ],
            (1, 1),
            1,
        ),
        // The reads without a filter between them.
        (
            &[
                0x1A, 0x15, 0x12, 0x13, 0x0A, 0x11, 0x0A, 0x08, 0x12, 0x06, 0x0A, 0x01, 0x61, 0x0A,
                0x01, 0x62, 0x0A, 0x05, 0x12, 0x03, 0x0A, 0x01, 0x63,
            ],
            (1, 3),
            2,
        ),
        // Reads of `a` and of `b`, a filter behind the one and a fetch behind the other, and reads of `c` and of `d`.
        (
            &[
                0x1A, 0x24, 0x12, 0x22, 0x0A, 0x20, 0x0A, 0x05, 0x12, 0x03, 0x0A, 0x01, 0x61, 0x12,
                0x00, 0x0A, 0x05, 0x12, 0x03, 0x0A, 0x01, 0x62, 0x1A, 0x00, 0x0A, 0x05, 0x12, 0x03,
                0x0A, 0x01, 0x63, 0x0A, 0x05, 0x12, 0x03, 0x0A, 0x01, 0x64,
            ],
            (1, 2),
            2,
        ),
        // A read, and a member 13 that isn't known.
        (
            &[0x1A, 0x08, 0x12, 0x06, 0x0A, 0x04, 0x0A, 0x00, 0x68, 0x05],
            (13, 0),
            0,
        ),
    ];
    for (bytes, want, records) in plans {
        assert!(rt; relation_of(rt.alloc(), bytes) == Some(want));
        assert!(rt; choice_of(rt.alloc(), bytes) == Some((want.0, records)));
    }
}

// The first relation of a plan, which isn't a root's.
fn first_relation<'a>(alloc: Global, bytes: &'a [u8]) -> Option<Merged<'a>>
    ensures { IfSome result (λ relation. relation.shape ≡ Shape.Rel) }
{
    let mut relations = plan(bytes)?.children(3, Shape::PlanRel);
    relations.next()?.merged(alloc, 1, Shape::Rel).ok()?
}

// The number of the winner among the members of the literal in the condition of a filter, or 0 where it has none.
fn literal_of(alloc: Global, bytes: &[u8]) -> Option<u32> {
    let relation = first_relation(alloc, bytes)?;
    match relation.message().merged(alloc, 2, Shape::FilterRel) {
        Ok(Some(filter)) => literal_in_filter(alloc, &filter),
        _ => None,
    }
}

fn literal_in_filter(alloc: Global, filter: &Merged<'_>) -> Option<u32>
    requires { filter.now.shape ≡ Shape.FilterRel }
{
    match filter.message().merged(alloc, 3, Shape::Expression) {
        Ok(Some(condition)) => literal_in_condition(alloc, &condition),
        _ => None,
    }
}

fn literal_in_condition(alloc: Global, condition: &Merged<'_>) -> Option<u32>
    requires { condition.now.shape ≡ Shape.Expression }
{
    match condition.message().merged(alloc, 1, Shape::Literal) {
        Ok(Some(literal)) => Some(winner_of(&literal)),
        _ => None,
    }
}

fn winner_of(literal: &Merged<'_>) -> u32 {
    match literal.message().oneof(OneOf::LiteralType) {
        Some((number, _)) => number,
        None => 0,
    }
}

#[test]
fn members_of_a_literal(rt: HostRuntime) {
    let plans: [(&[u8], u32); 4] = [
        // An i32, then `nullable`, which is no member.
        (
            &[
                0x1A, 0x0D, 0x0A, 0x0B, 0x12, 0x09, 0x1A, 0x07, 0x0A, 0x05, 0x28, 0x07, 0x90, 0x03,
                0x01,
            ],
            5,
        ),
        // An i32, then a boolean as a block, which is skipped.
        (
            &[
                0x1A, 0x0C, 0x0A, 0x0A, 0x12, 0x08, 0x1A, 0x06, 0x0A, 0x04, 0x28, 0x07, 0x0A, 0x00,
            ],
            5,
        ),
        // An i32, then a number 4 that isn't known, as four bytes.
        (
            &[
                0x1A, 0x0F, 0x0A, 0x0D, 0x12, 0x0B, 0x1A, 0x09, 0x0A, 0x07, 0x28, 0x07, 0x25, 0x01,
                0x02, 0x03, 0x04,
            ],
            4,
        ),
        // Only `nullable`.
        (
            &[
                0x1A, 0x0B, 0x0A, 0x09, 0x12, 0x07, 0x1A, 0x05, 0x0A, 0x03, 0x90, 0x03, 0x01,
            ],
            0,
        ),
    ];
    for (bytes, want) in plans {
        assert!(rt; literal_of(rt.alloc(), bytes) == Some(want));
    }
}
