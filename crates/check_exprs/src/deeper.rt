// What checks the relations and expressions that others hold.
ghost use Rattle.plan_verdict.specs.Checking.{Comes};
ghost use Rattle.plan_verdict.specs.Relation.{numbered};
ghost use Rattle.plan_verdict.specs.Rels.{over};
ghost use Rattle.plan_verdict.specs.Verdict.{checked_expr, checked_rel};

use crate::terms::Terms;
use plan_raw::{RawExpr, RawRel};
use plan_typed::{Expr, Rel};
use plan_verdict::{CheckError, Progress};
use sub_types::Ty;

/// What checks the relations and expressions inside others. Relations hold expressions, and expressions hold the relations
/// of subqueries; those checks call one another only through this.
pub trait Deeper {
    /// What it stands on checks relations and expressions.
    ghost is_ready: { Self → Type 0 };

    /// A relation, with the next number.
    fn relation(
        &self,
        terms: &Terms<'_>,
        progress: Progress,
        rel: &RawRel,
    ) -> Result<(Rel, Progress), CheckError>
        requires { is_ready self.now }
        ensures { Comes result (numbered (checked_rel terms.now rel.now) progress) };

    /// An expression in the relation with this number, over these columns.
    fn expression(
        &self,
        terms: &Terms<'_>,
        progress: Progress,
        relation: u32,
        columns: &[Ty],
        expr: &RawExpr,
    ) -> Result<(Expr, Progress), CheckError>
        requires { is_ready self.now }
        ensures { Comes result ((checked_expr terms.now expr.now).check (over relation columns.now) progress) };
}
