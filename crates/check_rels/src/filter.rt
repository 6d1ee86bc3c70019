// Filters and projections (Substrait `FilterRel` and `ProjectRel`).
ghost use Rattle.std.specs.Prelude.{map};
ghost use Rattle.std.specs.Option.{option_map};
ghost use Rattle.plan_typed.specs.Types.{columns_of};
ghost use Rattle.check_rels.specs.Inputs as inputs;
ghost use Rattle.plan_verdict.specs.Checking.{Comes};
ghost use Rattle.plan_verdict.specs.Exprs as expr_spec;
ghost use Rattle.plan_verdict.specs.Exprs.{condition};
ghost use Rattle.plan_verdict.specs.Rels as spec;
ghost use Rattle.plan_verdict.specs.Verdict.{checked_expr, checked_rel};

use crate::made::{filter_of, project_of};
use check_exprs::{Deeper, Terms, condition_box, each_in, input, part};
use plan_leaves::{Boxed, Items, RelCommon};
use plan_raw::{RawExpr, RawRel};
use plan_rules::beside;
use plan_typed::{Expr, Rel};
use plan_verdict::{CheckError, Progress};

/// The input, and a condition over its columns.
pub(crate) fn filter<D: Deeper>(
    deeper: &D,
    terms: &Terms<'_>,
    progress: Progress,
    number: u32,
    common: &Option<RelCommon>,
    written: &Option<Boxed<RawRel>>,
    condition: &Option<Boxed<RawExpr>>,
) -> Result<(Rel, Progress), CheckError>
    requires { D.is_ready deeper.now }
    ensures { Comes result (spec.filter number common.now (option_map (checked_rel terms.now) written.now) (option_map (checked_expr terms.now) condition.now) progress) }
{
    let (rel, progress) = input(deeper, terms, progress, number, written)?;
    filter_over(deeper, terms, progress, number, common, rel, condition)
}

/// A condition over the columns of this input.
fn filter_over<D: Deeper>(
    deeper: &D,
    terms: &Terms<'_>,
    progress: Progress,
    number: u32,
    common: &Option<RelCommon>,
    rel: Rel,
    condition: &Option<Boxed<RawExpr>>,
) -> Result<(Rel, Progress), CheckError>
    requires { D.is_ready deeper.now }
    ensures { Comes result (inputs.filter_over number common.now rel (option_map (checked_expr terms.now) condition.now) progress) }
{
    let condition = condition_over(deeper, terms, progress, number, &rel, condition);
    let (rel, (condition, progress)) = beside(rel, condition)?;
    part(
        filter_of(terms.alloc(), number, common, rel, condition),
        progress,
    )
}

/// A condition over the columns of a relation.
fn condition_over<D: Deeper>(
    deeper: &D,
    terms: &Terms<'_>,
    progress: Progress,
    number: u32,
    rel: &Rel,
    written: &Option<Boxed<RawExpr>>,
) -> Result<(Expr, Progress), CheckError>
    requires { D.is_ready deeper.now }
    ensures { Comes result (condition (spec.over number (columns_of rel.now)) (option_map (checked_expr terms.now) written.now) progress) }
{
    condition_box(
        deeper,
        terms,
        progress,
        number,
        rel.columns.as_slice(),
        written,
    )
}

/// The input, and expressions over its columns, which come behind them.
pub(crate) fn project<D: Deeper>(
    deeper: &D,
    terms: &Terms<'_>,
    progress: Progress,
    number: u32,
    common: &Option<RelCommon>,
    written: &Option<Boxed<RawRel>>,
    expressions: &[RawExpr],
) -> Result<(Rel, Progress), CheckError>
    requires { D.is_ready deeper.now }
    ensures { Comes result (spec.project number common.now (option_map (checked_rel terms.now) written.now) (map (checked_expr terms.now) expressions.now) progress) }
{
    let (rel, progress) = input(deeper, terms, progress, number, written)?;
    project_over(deeper, terms, progress, number, common, rel, expressions)
}

/// Expressions over the columns of this input.
fn project_over<D: Deeper>(
    deeper: &D,
    terms: &Terms<'_>,
    progress: Progress,
    number: u32,
    common: &Option<RelCommon>,
    rel: Rel,
    expressions: &[RawExpr],
) -> Result<(Rel, Progress), CheckError>
    requires { D.is_ready deeper.now }
    ensures { Comes result (inputs.project_over number common.now rel (map (checked_expr terms.now) expressions.now) progress) }
{
    let exprs = exprs_over(deeper, terms, progress, number, &rel, expressions);
    let (rel, (exprs, progress)) = beside(rel, exprs)?;
    part(
        project_of(terms.alloc(), number, common, rel, exprs),
        progress,
    )
}

/// Expressions over the columns of a relation.
fn exprs_over<D: Deeper>(
    deeper: &D,
    terms: &Terms<'_>,
    progress: Progress,
    number: u32,
    rel: &Rel,
    written: &[RawExpr],
) -> Result<(Items<Expr>, Progress), CheckError>
    requires { D.is_ready deeper.now }
    ensures { Comes result (expr_spec.each_in (spec.over number (columns_of rel.now)) (map (checked_expr terms.now) written.now) progress) }
{
    each_in(
        deeper,
        terms,
        progress,
        number,
        rel.columns.as_slice(),
        written,
    )
}
