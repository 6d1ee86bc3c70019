// What reads the relations and expressions in a message.
ghost use Rattle.std.specs.Prelude.{◌≡◌, ◌<◌, ℕ, IfOk};
ghost use Rattle.pb_wire.specs.Payloads.{fields_of};
ghost use Rattle.plan_parts.specs.Rels.{rel_by};
ghost use Rattle.plan_parts.specs.Exprs.{expression_by};
ghost use Rattle.plan_parts.specs.Reader.{reader};

use plan_raw::{RawExpr, RawRel};
use plan_scan::{Choice, OneOf};
use std::alloc::Global;
use sub_types::NoMemory;

/// What reads the relations and expressions that a message holds, for the readers of all that stands between. Relations hold
/// expressions, and expressions hold the relations of subqueries; those readers call one another only through this.
pub trait Deeper {
    /// It reads messages that may have fewer levels of messages below them than this.
    ghost levels: { Self → ℕ };

    /// What it stands on reads such messages.
    ghost is_ready: { Self → Type 0 };

    /// A `Rel`.
    fn relation(&self, alloc: Global, choice: &Choice<'_>) -> Result<RawRel, NoMemory>
        requires ready { is_ready self.now }
        requires oneof { choice.now.oneof ≡ OneOf.RelType }
        requires deeper { choice.now.below < levels self.now }
        ensures { IfOk result (λ rel. rel ≡ rel_by (reader choice.now.below) (fields_of choice.now.bytes)) };

    /// An `Expression`.
    fn expression(&self, alloc: Global, choice: &Choice<'_>) -> Result<RawExpr, NoMemory>
        requires ready { is_ready self.now }
        requires oneof { choice.now.oneof ≡ OneOf.RexType }
        requires deeper { choice.now.below < levels self.now }
        ensures { IfOk result (λ expr. expr ≡ expression_by (reader choice.now.below) (fields_of choice.now.bytes)) };
}
