// Subqueries (Substrait `Expression.Subquery`).
ghost use Rattle.std.specs.Prelude.{◌≡◌, IfOk};
ghost use Rattle.pb_wire.specs.Payloads.{fields_of};
ghost use Rattle.plan_parts.specs.Exprs.{subquery_by, subquery_member, scalar_by, in_predicate_by, set_predicate_by};
ghost use Rattle.plan_parts.specs.CanRead.{CanRead};
ghost use Rattle.plan_parts.specs.Reader.{reader};

use plan_leaves::zip;
use plan_parts::{Deeper, exprs_at, rel_at};
use plan_raw::RawExpr;
use plan_scan::{Message, OneOf, Shape, field};
use std::alloc::Global;
use sub_types::NoMemory;

/// A `Subquery`.
pub(crate) fn subquery<D: Deeper>(
    alloc: Global,
    deeper: &D,
    message: &Message<'_>,
) -> Result<RawExpr, NoMemory>
    requires shape { message.now.shape ≡ Shape.Subquery }
    requires deeper { CanRead D.Deeper deeper.now message.now.below }
    ensures { IfOk result (λ expr. expr ≡ subquery_by (reader message.now.below) (fields_of message.now.bytes)) }
{
    match message.oneof(OneOf::SubqueryType) {
        None => Ok(RawExpr::SubqueryMissing),
        Some((number, won)) => member(alloc, deeper, number, &won),
    }
}

fn member<D: Deeper>(
    alloc: Global,
    deeper: &D,
    number: u32,
    won: &Message<'_>,
) -> Result<RawExpr, NoMemory>
    requires shape { won.now.shape ≡ Shape.Subquery }
    requires deeper { CanRead D.Deeper deeper.now won.now.below }
    ensures { IfOk result (λ expr. expr ≡ subquery_member (reader won.now.below) number (fields_of won.now.bytes)) }
{
    match number {
        field::subquery::SCALAR => match won.merged(
            alloc,
            field::subquery::SCALAR,
            Shape::ScalarSubquery,
        )? {
            None => Ok(RawExpr::SubqueryMissing),
            Some(found) => scalar(alloc, deeper, &found.message()),
        },
        field::subquery::IN_PREDICATE => match won.merged(
            alloc,
            field::subquery::IN_PREDICATE,
            Shape::InPredicate,
        )? {
            None => Ok(RawExpr::SubqueryMissing),
            Some(found) => in_predicate(alloc, deeper, &found.message()),
        },
        field::subquery::SET_PREDICATE => match won.merged(
            alloc,
            field::subquery::SET_PREDICATE,
            Shape::SetPredicate,
        )? {
            None => Ok(RawExpr::SubqueryMissing),
            Some(found) => set_predicate(alloc, deeper, &found.message()),
        },
        field::subquery::SET_COMPARISON => Ok(RawExpr::SetComparison),
        _ => Ok(RawExpr::SubqueryUnknown { number }),
    }
}

fn scalar<D: Deeper>(alloc: Global, deeper: &D, message: &Message<'_>) -> Result<RawExpr, NoMemory>
    requires shape { message.now.shape ≡ Shape.ScalarSubquery }
    requires deeper { CanRead D.Deeper deeper.now message.now.below }
    ensures { IfOk result (λ expr. expr ≡ scalar_by (reader message.now.below) (fields_of message.now.bytes)) }
{
    Ok(RawExpr::Scalar {
        input: rel_at(alloc, deeper, message, field::scalar_subquery::INPUT)?,
    })
}

fn in_predicate<D: Deeper>(
    alloc: Global,
    deeper: &D,
    message: &Message<'_>,
) -> Result<RawExpr, NoMemory>
    requires shape { message.now.shape ≡ Shape.InPredicate }
    requires deeper { CanRead D.Deeper deeper.now message.now.below }
    ensures { IfOk result (λ expr. expr ≡ in_predicate_by (reader message.now.below) (fields_of message.now.bytes)) }
{
    let (needles, haystack) = zip(
        exprs_at(alloc, deeper, message, field::in_predicate::NEEDLES),
        rel_at(alloc, deeper, message, field::in_predicate::HAYSTACK),
    )?;
    Ok(RawExpr::InPredicate { needles, haystack })
}

fn set_predicate<D: Deeper>(
    alloc: Global,
    deeper: &D,
    message: &Message<'_>,
) -> Result<RawExpr, NoMemory>
    requires shape { message.now.shape ≡ Shape.SetPredicate }
    requires deeper { CanRead D.Deeper deeper.now message.now.below }
    ensures { IfOk result (λ expr. expr ≡ set_predicate_by (reader message.now.below) (fields_of message.now.bytes)) }
{
    Ok(RawExpr::SetPredicate {
        predicate_op: message.uint32(field::set_predicate::PREDICATE_OP),
        tuples: rel_at(alloc, deeper, message, field::set_predicate::TUPLES)?,
    })
}
