// The relations and expressions in a field of a message.
ghost use Rattle.std.specs.Prelude.{◌≡◌, ◌+◌, IfOk};
ghost use Rattle.pb_wire.specs.Payloads.{fields_of};
ghost use Rattle.plan_scan.specs.Table.{HoldsMessage};
ghost use Rattle.plan_parts.specs.Shapes.{child, children};
ghost use Rattle.plan_parts.specs.Rels.{rel_by};
ghost use Rattle.plan_parts.specs.Exprs.{expression_by};
ghost use Rattle.plan_parts.specs.CanRead.{CanRead};
ghost use Rattle.plan_parts.specs.Reader.{reader};

use crate::deeper::Deeper;
use plan_leaves::{Boxed, Items};
use plan_raw::{RawExpr, RawRel};
use plan_scan::{Message, OneOf, Shape};
use std::alloc::Global;
use sub_types::NoMemory;

/// The expression in a field of a message, or `None` where it is absent.
pub fn expr_at<D: Deeper>(
    alloc: Global,
    deeper: &D,
    message: &Message<'_>,
    number: u32,
) -> Result<Option<RawExpr>, NoMemory>
    requires shape { HoldsMessage message.now.shape number Shape.Expression }
    requires deeper { CanRead D.Deeper deeper.now message.now.below }
    ensures { IfOk result (λ expr. expr ≡ child (reader message.now.below) Shape.Expression number (fields_of message.now.bytes)) }
{
    match message.choice_at(alloc, number, OneOf::RexType)? {
        None => Ok(None),
        Some(found) => Ok(Some(deeper.expression(alloc, &found)?)),
    }
}

/// The expression in a field of a message, in a box, or `None` where it is absent.
pub fn boxed_expr_at<D: Deeper>(
    alloc: Global,
    deeper: &D,
    message: &Message<'_>,
    number: u32,
) -> Result<Option<Boxed<RawExpr>>, NoMemory>
    requires shape { HoldsMessage message.now.shape number Shape.Expression }
    requires deeper { CanRead D.Deeper deeper.now message.now.below }
    ensures { IfOk result (λ expr. expr ≡ child (reader message.now.below) Shape.Expression number (fields_of message.now.bytes)) }
{
    match expr_at(alloc, deeper, message, number)? {
        None => Ok(None),
        Some(expr) => Ok(Some(Boxed::new(alloc, expr)?)),
    }
}

/// The expressions in a field of a message.
pub fn exprs_at<D: Deeper>(
    alloc: Global,
    deeper: &D,
    message: &Message<'_>,
    number: u32,
) -> Result<Items<RawExpr>, NoMemory>
    requires shape { HoldsMessage message.now.shape number Shape.Expression }
    requires deeper { CanRead D.Deeper deeper.now message.now.below }
    ensures { IfOk result (λ exprs. exprs ≡ children (reader message.now.below) Shape.Expression number (fields_of message.now.bytes)) }
{
    let mut exprs = Vec::new(alloc);
    let mut left = message.children(number, Shape::Expression);
    while let Some(found) = left.next() {
        exprs.push(expr_in(alloc, deeper, &found)?)?;
    }
    Ok(Items::from_vec(exprs))
}

fn expr_in<D: Deeper>(alloc: Global, deeper: &D, message: &Message<'_>) -> Result<RawExpr, NoMemory>
    requires shape { message.now.shape ≡ Shape.Expression }
    requires deeper { CanRead D.Deeper deeper.now (message.now.below + 1) }
    ensures { IfOk result (λ expr. expr ≡ expression_by (reader message.now.below) (fields_of message.now.bytes)) }
{
    let choice = message.choice(alloc, OneOf::RexType)?;
    deeper.expression(alloc, &choice)
}

fn relation_at<D: Deeper>(
    alloc: Global,
    deeper: &D,
    message: &Message<'_>,
    number: u32,
) -> Result<Option<RawRel>, NoMemory>
    requires shape { HoldsMessage message.now.shape number Shape.Rel }
    requires deeper { CanRead D.Deeper deeper.now message.now.below }
    ensures { IfOk result (λ rel. rel ≡ child (reader message.now.below) Shape.Rel number (fields_of message.now.bytes)) }
{
    match message.choice_at(alloc, number, OneOf::RelType)? {
        None => Ok(None),
        Some(found) => Ok(Some(deeper.relation(alloc, &found)?)),
    }
}

/// The relation in a field of a message, in a box, or `None` where it is absent.
pub fn rel_at<D: Deeper>(
    alloc: Global,
    deeper: &D,
    message: &Message<'_>,
    number: u32,
) -> Result<Option<Boxed<RawRel>>, NoMemory>
    requires shape { HoldsMessage message.now.shape number Shape.Rel }
    requires deeper { CanRead D.Deeper deeper.now message.now.below }
    ensures { IfOk result (λ rel. rel ≡ child (reader message.now.below) Shape.Rel number (fields_of message.now.bytes)) }
{
    match relation_at(alloc, deeper, message, number)? {
        None => Ok(None),
        Some(rel) => Ok(Some(Boxed::new(alloc, rel)?)),
    }
}

/// The relations in a field of a message.
pub fn rels_at<D: Deeper>(
    alloc: Global,
    deeper: &D,
    message: &Message<'_>,
    number: u32,
) -> Result<Items<RawRel>, NoMemory>
    requires shape { HoldsMessage message.now.shape number Shape.Rel }
    requires deeper { CanRead D.Deeper deeper.now message.now.below }
    ensures { IfOk result (λ rels. rels ≡ children (reader message.now.below) Shape.Rel number (fields_of message.now.bytes)) }
{
    let mut rels = Vec::new(alloc);
    let mut left = message.children(number, Shape::Rel);
    while let Some(found) = left.next() {
        rels.push(rel_in(alloc, deeper, &found)?)?;
    }
    Ok(Items::from_vec(rels))
}

fn rel_in<D: Deeper>(alloc: Global, deeper: &D, message: &Message<'_>) -> Result<RawRel, NoMemory>
    requires shape { message.now.shape ≡ Shape.Rel }
    requires deeper { CanRead D.Deeper deeper.now (message.now.below + 1) }
    ensures { IfOk result (λ rel. rel ≡ rel_by (reader message.now.below) (fields_of message.now.bytes)) }
{
    let choice = message.choice(alloc, OneOf::RelType)?;
    deeper.relation(alloc, &choice)
}
