// The checks of relations and expressions, each by way of the other. So many levels of them are checked; more than 2^32 find
// no memory.
ghost use Rattle.plan_verdict.specs.Checking.{Comes};
ghost use Rattle.plan_verdict.specs.Relation.{numbered};
ghost use Rattle.plan_verdict.specs.Rels.{over};
ghost use Rattle.plan_verdict.specs.Verdict.{checked_expr, checked_rel};

use check_exprs::{Deeper, Terms, expression_by};
use check_rels::relation_by;
use plan_raw::{RawExpr, RawRel};
use plan_typed::{Expr, Rel};
use plan_verdict::{CheckError, Progress};
use sub_types::Ty;

/// What checks one level further down, by two functions.
#[derive(Drop)]
pub(crate) struct Checks<R, E> {
    rels: R,
    exprs: E,
}

impl<R, E> Deeper for Checks<R, E>
where
    R: Fn(&Terms<'_>, Progress, &RawRel) -> Result<(Rel, Progress), CheckError>,
    E: Fn(&Terms<'_>, Progress, u32, &[Ty], &RawExpr) -> Result<(Expr, Progress), CheckError>,
{
    ghost is_ready = { λ checks.
        ((terms : _) (progress : _) (rel : _) → R.pre checks.rels terms progress rel)
        × ((terms : _) (progress : _) (rel : _) (result : _) → R.post checks.rels terms progress rel result → Comes result (numbered (checked_rel terms.now rel.now) progress))
        × ((terms : _) (progress : _) (relation : _) (columns : _) (expr : _) → E.pre checks.exprs terms progress relation columns expr)
        × ((terms : _) (progress : _) (relation : _) (columns : _) (expr : _) (result : _) → E.post checks.exprs terms progress relation columns expr result → Comes result ((checked_expr terms.now expr.now).check (over relation columns.now) progress)) };

    fn relation(
        &self,
        terms: &Terms<'_>,
        progress: Progress,
        rel: &RawRel,
    ) -> Result<(Rel, Progress), CheckError> {
        (self.rels)(terms, progress, rel)
    }

    fn expression(
        &self,
        terms: &Terms<'_>,
        progress: Progress,
        relation: u32,
        columns: &[Ty],
        expr: &RawExpr,
    ) -> Result<(Expr, Progress), CheckError> {
        (self.exprs)(terms, progress, relation, columns, expr)
    }
}

/// More levels of relations and expressions than memory holds.
pub(crate) const LEVELS: u32 = u32::MAX;

/// A relation with the next number, over so many levels of relations and expressions.
#[cycle(knot)]
pub(crate) fn relation(
    levels: u32,
    terms: &Terms<'_>,
    progress: Progress,
    rel: &RawRel,
) -> Result<(Rel, Progress), CheckError>
    ensures { Comes result (numbered (checked_rel terms.now rel.now) progress) }
{
    if levels == 0 {
        return Err(CheckError::NoMemory);
    }
    let below = levels - 1;
    let rels = |terms: &Terms<'_>, progress: Progress, rel: &RawRel| -> Result<
        (Rel, Progress),
        CheckError,
    >
        ensures { Comes result (numbered (checked_rel terms.now rel.now) progress) }
    { relation(below, terms, progress, rel) };
    let exprs = |terms: &Terms<
        '_,
    >, progress: Progress, number: u32, columns: &[Ty], expr: &RawExpr| -> Result<
        (Expr, Progress),
        CheckError,
    >
        ensures { Comes result ((checked_expr terms.now expr.now).check (over number columns.now) progress) }
    { expression(below, terms, progress, number, columns, expr) };
    relation_by(&Checks { rels, exprs }, terms, progress, rel)
}

/// An expression in the relation with this number, over so many levels of relations and expressions.
#[cycle(knot)]
fn expression(
    levels: u32,
    terms: &Terms<'_>,
    progress: Progress,
    number: u32,
    columns: &[Ty],
    expr: &RawExpr,
) -> Result<(Expr, Progress), CheckError>
    ensures { Comes result ((checked_expr terms.now expr.now).check (over number columns.now) progress) }
{
    if levels == 0 {
        return Err(CheckError::NoMemory);
    }
    let below = levels - 1;
    let rels = |terms: &Terms<'_>, progress: Progress, rel: &RawRel| -> Result<
        (Rel, Progress),
        CheckError,
    >
        ensures { Comes result (numbered (checked_rel terms.now rel.now) progress) }
    { relation(below, terms, progress, rel) };
    let exprs = |terms: &Terms<
        '_,
    >, progress: Progress, number: u32, columns: &[Ty], expr: &RawExpr| -> Result<
        (Expr, Progress),
        CheckError,
    >
        ensures { Comes result ((checked_expr terms.now expr.now).check (over number columns.now) progress) }
    { expression(below, terms, progress, number, columns, expr) };
    expression_by(
        &Checks { rels, exprs },
        terms,
        progress,
        number,
        columns,
        expr,
    )
}
