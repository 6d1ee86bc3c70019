// Fetch relations (Substrait `FetchRel`).
ghost use Rattle.std.specs.Prelude.{◌≡◌, IfOk};
ghost use Rattle.pb_wire.specs.Payloads.{fields_of};
ghost use Rattle.plan_parts.specs.Rels.{fetch_by, offset_by, offset_member, count_by, count_member};
ghost use Rattle.plan_parts.specs.CanRead.{CanRead};
ghost use Rattle.plan_parts.specs.Reader.{reader};

use plan_leaves::zip;
use plan_parts::{Deeper, boxed_expr_at, common_at, rel_at};
use plan_raw::{RawCount, RawOffset, RawRel};
use plan_scan::{Message, OneOf, Shape, field};
use std::alloc::Global;
use sub_types::NoMemory;

/// A `FetchRel`.
pub(crate) fn fetch<D: Deeper>(
    alloc: Global,
    deeper: &D,
    message: &Message<'_>,
) -> Result<RawRel, NoMemory>
    requires shape { message.now.shape ≡ Shape.FetchRel }
    requires deeper { CanRead D.Deeper deeper.now message.now.below }
    ensures { IfOk result (λ rel. rel ≡ fetch_by (reader message.now.below) (fields_of message.now.bytes)) }
{
    let ((common, input), (offset, count)) = zip(
        zip(
            common_at(alloc, message),
            rel_at(alloc, deeper, message, field::fetch_rel::INPUT),
        ),
        zip(
            offset(alloc, deeper, message),
            count(alloc, deeper, message),
        ),
    )?;
    Ok(RawRel::Fetch {
        common,
        input,
        offset,
        count,
    })
}

fn offset<D: Deeper>(
    alloc: Global,
    deeper: &D,
    message: &Message<'_>,
) -> Result<RawOffset, NoMemory>
    requires shape { message.now.shape ≡ Shape.FetchRel }
    requires deeper { CanRead D.Deeper deeper.now message.now.below }
    ensures { IfOk result (λ offset. offset ≡ offset_by (reader message.now.below) (fields_of message.now.bytes)) }
{
    match message.oneof(OneOf::OffsetMode) {
        None => Ok(RawOffset::Missing),
        Some((number, won)) => offset_in(alloc, deeper, number, &won),
    }
}

fn offset_in<D: Deeper>(
    alloc: Global,
    deeper: &D,
    number: u32,
    won: &Message<'_>,
) -> Result<RawOffset, NoMemory>
    requires shape { won.now.shape ≡ Shape.FetchRel }
    requires deeper { CanRead D.Deeper deeper.now won.now.below }
    ensures { IfOk result (λ offset. offset ≡ offset_member (reader won.now.below) number (fields_of won.now.bytes)) }
{
    if number == field::fetch_rel::OFFSET {
        return Ok(RawOffset::Offset(won.int64(field::fetch_rel::OFFSET)));
    }
    match boxed_expr_at(alloc, deeper, won, field::fetch_rel::OFFSET_EXPR)? {
        None => Ok(RawOffset::Missing),
        Some(expr) => Ok(RawOffset::OffsetExpr(expr)),
    }
}

fn count<D: Deeper>(alloc: Global, deeper: &D, message: &Message<'_>) -> Result<RawCount, NoMemory>
    requires shape { message.now.shape ≡ Shape.FetchRel }
    requires deeper { CanRead D.Deeper deeper.now message.now.below }
    ensures { IfOk result (λ count. count ≡ count_by (reader message.now.below) (fields_of message.now.bytes)) }
{
    match message.oneof(OneOf::CountMode) {
        None => Ok(RawCount::Missing),
        Some((number, won)) => count_in(alloc, deeper, number, &won),
    }
}

fn count_in<D: Deeper>(
    alloc: Global,
    deeper: &D,
    number: u32,
    won: &Message<'_>,
) -> Result<RawCount, NoMemory>
    requires shape { won.now.shape ≡ Shape.FetchRel }
    requires deeper { CanRead D.Deeper deeper.now won.now.below }
    ensures { IfOk result (λ count. count ≡ count_member (reader won.now.below) number (fields_of won.now.bytes)) }
{
    if number == field::fetch_rel::COUNT {
        return Ok(RawCount::Count(won.int64(field::fetch_rel::COUNT)));
    }
    match boxed_expr_at(alloc, deeper, won, field::fetch_rel::COUNT_EXPR)? {
        None => Ok(RawCount::Missing),
        Some(expr) => Ok(RawCount::CountExpr(expr)),
    }
}
