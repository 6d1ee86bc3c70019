// Relations (Substrait `Rel`).
ghost use Rattle.std.specs.Prelude.{◌≡◌, IfOk};
ghost use Rattle.pb_wire.specs.Payloads.{fields_of};
ghost use Rattle.plan_parts.specs.Rels as rels;
ghost use Rattle.plan_parts.specs.CanRead.{CanRead};
ghost use Rattle.plan_parts.specs.Reader.{reader};
ghost use Rattle.plan_scan.specs.Table.{HoldsMessage};
ghost use Rattle.plan_rels.specs.Member.{rel_in};

use crate::aggregate::{aggregate, sort_fields_at};
use crate::fetch::fetch;
use crate::read::read;
use plan_leaves::zip;
use plan_parts::{Deeper, boxed_expr_at, common_at, exprs_at, rel_at, rels_at};
use plan_raw::RawRel;
use plan_scan::{Choice, Message, OneOf, Shape, field};
use std::alloc::Global;
use sub_types::NoMemory;

/// A `Rel`, whose relations and expressions are read by another reader.
pub fn relation_by<D: Deeper>(
    alloc: Global,
    deeper: &D,
    choice: &Choice<'_>,
) -> Result<RawRel, NoMemory>
    requires oneof { choice.now.oneof ≡ OneOf.RelType }
    requires deeper { CanRead D.Deeper deeper.now choice.now.below }
    ensures { IfOk result (λ rel. rel ≡ rels.rel_by (reader choice.now.below) (fields_of choice.now.bytes)) }
{
    match choice.winner() {
        None => Ok(RawRel::Missing),
        Some((number, None)) => Ok(RawRel::Unknown { number }),
        Some((number, Some(message))) => member(alloc, deeper, number, &message),
    }
}

// The message of the member of this number.
fn member<D: Deeper>(
    alloc: Global,
    deeper: &D,
    number: u32,
    message: &Message<'_>,
) -> Result<RawRel, NoMemory>
    requires shape { HoldsMessage Shape.Rel number message.now.shape }
    requires deeper { CanRead D.Deeper deeper.now message.now.below }
    ensures { IfOk result (λ rel. rel ≡ rel_in (reader message.now.below) number (fields_of message.now.bytes)) }
{
    match number {
        field::rel::READ => read(alloc, deeper, message),
        field::rel::FILTER => filter(alloc, deeper, message),
        field::rel::FETCH => fetch(alloc, deeper, message),
        field::rel::AGGREGATE => aggregate(alloc, deeper, message),
        field::rel::SORT => sort(alloc, deeper, message),
        field::rel::JOIN => join(alloc, deeper, message),
        field::rel::PROJECT => project(alloc, deeper, message),
        field::rel::SET => set(alloc, deeper, message),
        field::rel::CROSS => cross(alloc, deeper, message),
        _ => Ok(RawRel::Unknown { number }),
    }
}

fn filter<D: Deeper>(alloc: Global, deeper: &D, message: &Message<'_>) -> Result<RawRel, NoMemory>
    requires shape { message.now.shape ≡ Shape.FilterRel }
    requires deeper { CanRead D.Deeper deeper.now message.now.below }
    ensures { IfOk result (λ rel. rel ≡ rels.filter_by (reader message.now.below) (fields_of message.now.bytes)) }
{
    let (common, (input, condition)) = zip(
        common_at(alloc, message),
        zip(
            rel_at(alloc, deeper, message, field::filter_rel::INPUT),
            boxed_expr_at(alloc, deeper, message, field::filter_rel::CONDITION),
        ),
    )?;
    Ok(RawRel::Filter {
        common,
        input,
        condition,
    })
}

fn sort<D: Deeper>(alloc: Global, deeper: &D, message: &Message<'_>) -> Result<RawRel, NoMemory>
    requires shape { message.now.shape ≡ Shape.SortRel }
    requires deeper { CanRead D.Deeper deeper.now message.now.below }
    ensures { IfOk result (λ rel. rel ≡ rels.sort_by (reader message.now.below) (fields_of message.now.bytes)) }
{
    let (common, (input, sorts)) = zip(
        common_at(alloc, message),
        zip(
            rel_at(alloc, deeper, message, field::sort_rel::INPUT),
            sort_fields_at(alloc, deeper, message, field::sort_rel::SORTS),
        ),
    )?;
    Ok(RawRel::Sort {
        common,
        input,
        sorts,
    })
}

fn join<D: Deeper>(alloc: Global, deeper: &D, message: &Message<'_>) -> Result<RawRel, NoMemory>
    requires shape { message.now.shape ≡ Shape.JoinRel }
    requires deeper { CanRead D.Deeper deeper.now message.now.below }
    ensures { IfOk result (λ rel. rel ≡ rels.join_by (reader message.now.below) (fields_of message.now.bytes)) }
{
    let inputs = zip(
        rel_at(alloc, deeper, message, field::join_rel::LEFT),
        rel_at(alloc, deeper, message, field::join_rel::RIGHT),
    );
    let filters = zip(
        boxed_expr_at(alloc, deeper, message, field::join_rel::EXPRESSION),
        boxed_expr_at(alloc, deeper, message, field::join_rel::POST_JOIN_FILTER),
    );
    let (common, ((left, right), (expression, post_join_filter))) = zip(
        common_at(alloc, message),
        zip(inputs, filters),
    )?;
    Ok(RawRel::Join {
        common,
        left,
        right,
        expression,
        post_join_filter,
        type_: message.uint32(field::join_rel::TYPE),
    })
}

fn project<D: Deeper>(alloc: Global, deeper: &D, message: &Message<'_>) -> Result<RawRel, NoMemory>
    requires shape { message.now.shape ≡ Shape.ProjectRel }
    requires deeper { CanRead D.Deeper deeper.now message.now.below }
    ensures { IfOk result (λ rel. rel ≡ rels.project_by (reader message.now.below) (fields_of message.now.bytes)) }
{
    let (common, (input, expressions)) = zip(
        common_at(alloc, message),
        zip(
            rel_at(alloc, deeper, message, field::project_rel::INPUT),
            exprs_at(alloc, deeper, message, field::project_rel::EXPRESSIONS),
        ),
    )?;
    Ok(RawRel::Project {
        common,
        input,
        expressions,
    })
}

fn set<D: Deeper>(alloc: Global, deeper: &D, message: &Message<'_>) -> Result<RawRel, NoMemory>
    requires shape { message.now.shape ≡ Shape.SetRel }
    requires deeper { CanRead D.Deeper deeper.now message.now.below }
    ensures { IfOk result (λ rel. rel ≡ rels.set_by (reader message.now.below) (fields_of message.now.bytes)) }
{
    let (common, inputs) = zip(
        common_at(alloc, message),
        rels_at(alloc, deeper, message, field::set_rel::INPUTS),
    )?;
    Ok(RawRel::Set {
        common,
        inputs,
        op: message.uint32(field::set_rel::OP),
    })
}

fn cross<D: Deeper>(alloc: Global, deeper: &D, message: &Message<'_>) -> Result<RawRel, NoMemory>
    requires shape { message.now.shape ≡ Shape.CrossRel }
    requires deeper { CanRead D.Deeper deeper.now message.now.below }
    ensures { IfOk result (λ rel. rel ≡ rels.cross_by (reader message.now.below) (fields_of message.now.bytes)) }
{
    let (common, (left, right)) = zip(
        common_at(alloc, message),
        zip(
            rel_at(alloc, deeper, message, field::cross_rel::LEFT),
            rel_at(alloc, deeper, message, field::cross_rel::RIGHT),
        ),
    )?;
    Ok(RawRel::Cross {
        common,
        left,
        right,
    })
}
