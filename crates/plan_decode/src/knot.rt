// The readers of relations and expressions, each by way of the other. A closure's clauses may name what it captures, which is
// why each captures the levels.
ghost use Rattle.std.specs.Prelude.{◌≡◌, ◌<◌, IfOk};
ghost use Rattle.pb_wire.specs.Payloads.{fields_of};
ghost use Rattle.plan_parts.specs.Rels.{rel_by};
ghost use Rattle.plan_parts.specs.Exprs.{expression_by as expr_by};
ghost use Rattle.plan_parts.specs.Reader.{reader};

use crate::readers::Readers;
use plan_exprs::expression_by;
use plan_raw::{RawExpr, RawRel};
use plan_rels::relation_by;
use plan_scan::{Choice, OneOf};
use std::alloc::Global;
use sub_types::NoMemory;

/// A `Rel`.
#[cycle(tree)]
pub(crate) fn relation(alloc: Global, choice: &Choice<'_>) -> Result<RawRel, NoMemory>
    requires { choice.now.oneof ≡ OneOf.RelType }
    ensures { IfOk result (λ rel. rel ≡ rel_by (reader choice.now.below) (fields_of choice.now.bytes)) }
{
    let levels = choice.below();
    let rel = |alloc: Global, inner: &Choice<'_>| -> Result<RawRel, NoMemory>
        requires oneof { inner.now.oneof ≡ OneOf.RelType }
        requires deeper { inner.now.below < levels }
        ensures { IfOk result (λ rel. rel ≡ rel_by (reader inner.now.below) (fields_of inner.now.bytes)) }
    {
        let _ = &levels;
        relation(alloc, inner)
    };
    let expr = |alloc: Global, inner: &Choice<'_>| -> Result<RawExpr, NoMemory>
        requires oneof { inner.now.oneof ≡ OneOf.RexType }
        requires deeper { inner.now.below < levels }
        ensures { IfOk result (λ expr. expr ≡ expr_by (reader inner.now.below) (fields_of inner.now.bytes)) }
    {
        let _ = &levels;
        expression(alloc, inner)
    };
    let readers = Readers { levels, rel, expr };
    relation_by(alloc, &readers, choice)
}

/// An `Expression`.
#[cycle(tree)]
pub(crate) fn expression(alloc: Global, choice: &Choice<'_>) -> Result<RawExpr, NoMemory>
    requires { choice.now.oneof ≡ OneOf.RexType }
    ensures { IfOk result (λ expr. expr ≡ expr_by (reader choice.now.below) (fields_of choice.now.bytes)) }
{
    let levels = choice.below();
    let rel = |alloc: Global, inner: &Choice<'_>| -> Result<RawRel, NoMemory>
        requires oneof { inner.now.oneof ≡ OneOf.RelType }
        requires deeper { inner.now.below < levels }
        ensures { IfOk result (λ rel. rel ≡ rel_by (reader inner.now.below) (fields_of inner.now.bytes)) }
    {
        let _ = &levels;
        relation(alloc, inner)
    };
    let expr = |alloc: Global, inner: &Choice<'_>| -> Result<RawExpr, NoMemory>
        requires oneof { inner.now.oneof ≡ OneOf.RexType }
        requires deeper { inner.now.below < levels }
        ensures { IfOk result (λ expr. expr ≡ expr_by (reader inner.now.below) (fields_of inner.now.bytes)) }
    {
        let _ = &levels;
        expression(alloc, inner)
    };
    let readers = Readers { levels, rel, expr };
    expression_by(alloc, &readers, choice)
}
