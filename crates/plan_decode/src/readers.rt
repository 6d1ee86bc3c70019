// What reads relations and expressions one level further down, by two functions.
ghost use Rattle.std.specs.Prelude.{◌≡◌, ◌<◌, IfOk};
ghost use Rattle.pb_wire.specs.Payloads.{fields_of};
ghost use Rattle.plan_scan.specs.declared.oneof.OneOf.TheVariants as oneofs;
ghost use Rattle.plan_parts.specs.Rels.{rel_by};
ghost use Rattle.plan_parts.specs.Exprs.{expression_by};
ghost use Rattle.plan_parts.specs.Reader.{reader};

use plan_parts::Deeper;
use plan_raw::{RawExpr, RawRel};
use plan_scan::Choice;
use std::alloc::Global;
use sub_types::NoMemory;

/// A reader of relations and one of expressions, each for messages that may have fewer levels of messages below them than
/// `levels`.
#[derive(Drop)]
pub(crate) struct Readers<R, E> {
    pub(crate) levels: u32,
    pub(crate) rel: R,
    pub(crate) expr: E,
}

impl<R, E> Deeper for Readers<R, E>
where
    R: Fn(Global, &Choice<'_>) -> Result<RawRel, NoMemory>,
    E: Fn(Global, &Choice<'_>) -> Result<RawExpr, NoMemory>,
{
    ghost levels = { λ readers. readers.levels };

    ghost is_ready = { λ readers.
        ((alloc : _) (inner : _) → inner.now.oneof ≡ oneofs.RelType → inner.now.below < readers.levels → R.pre readers.rel alloc inner)
        × ((alloc : _) (inner : _) (result : _) → R.post readers.rel alloc inner result → IfOk result (λ it. it ≡ rel_by (reader inner.now.below) (fields_of inner.now.bytes)))
        × ((alloc : _) (inner : _) → inner.now.oneof ≡ oneofs.RexType → inner.now.below < readers.levels → E.pre readers.expr alloc inner)
        × ((alloc : _) (inner : _) (result : _) → E.post readers.expr alloc inner result → IfOk result (λ it. it ≡ expression_by (reader inner.now.below) (fields_of inner.now.bytes))) };

    fn relation(&self, alloc: Global, choice: &Choice<'_>) -> Result<RawRel, NoMemory> {
        (self.rel)(alloc, choice)
    }

    fn expression(&self, alloc: Global, choice: &Choice<'_>) -> Result<RawExpr, NoMemory> {
        (self.expr)(alloc, choice)
    }
}
