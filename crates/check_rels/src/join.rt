// Joins (Substrait `JoinRel` and `CrossRel`).
ghost use Rattle.std.specs.Prelude.{◌++◌};
ghost use Rattle.std.specs.Option.{ok_or, option_map};
ghost use Rattle.plan_typed.specs.Types.{columns_of};
ghost use Rattle.check_rels.specs.Joins as joins;
ghost use Rattle.plan_verdict.specs.Checking.{Agrees, Comes};
ghost use Rattle.plan_verdict.specs.Exprs.{condition};
ghost use Rattle.plan_verdict.specs.Rels as spec;
ghost use Rattle.plan_verdict.specs.Verdict.{checked_expr, checked_rel};
ghost use Rattle.plan_verdict.specs.declared.rule.Rule.TheVariants as rules;

use crate::made::{cross_of, join_of};
use check_exprs::{Deeper, Terms, condition_box, input, joined, maybe_condition, part, refuse};
use plan_leaves::{Boxed, RelCommon};
use plan_raw::{RawExpr, RawRel};
use plan_rules::{beside, join_columns, join_kind};
use plan_typed::{Expr, JoinKind, Rel};
use plan_verdict::{CheckError, Progress, Rule};

/// The inputs, a condition over the columns of both, and a later one over what the join gives.
pub(crate) fn join<D: Deeper>(
    deeper: &D,
    terms: &Terms<'_>,
    progress: Progress,
    number: u32,
    common: &Option<RelCommon>,
    left: &Option<Boxed<RawRel>>,
    right: &Option<Boxed<RawRel>>,
    expression: &Option<Boxed<RawExpr>>,
    post_join_filter: &Option<Boxed<RawExpr>>,
    type_: u32,
) -> Result<(Rel, Progress), CheckError>
    requires { D.is_ready deeper.now }
    ensures { Comes result (spec.join number common.now (option_map (checked_rel terms.now) left.now) (option_map (checked_rel terms.now) right.now) (option_map (checked_expr terms.now) expression.now) (option_map (checked_expr terms.now) post_join_filter.now) type_ progress) }
{
    let (left, progress) = input(deeper, terms, progress, number, left)?;
    join_behind(
        deeper,
        terms,
        progress,
        number,
        common,
        left,
        right,
        expression,
        post_join_filter,
        type_,
    )
}

/// A join of this left input, and of a right one.
fn join_behind<D: Deeper>(
    deeper: &D,
    terms: &Terms<'_>,
    progress: Progress,
    number: u32,
    common: &Option<RelCommon>,
    left: Rel,
    right: &Option<Boxed<RawRel>>,
    expression: &Option<Boxed<RawExpr>>,
    post_join_filter: &Option<Boxed<RawExpr>>,
    type_: u32,
) -> Result<(Rel, Progress), CheckError>
    requires { D.is_ready deeper.now }
    ensures { Comes result (joins.join_behind number common.now left (option_map (checked_rel terms.now) right.now) (option_map (checked_expr terms.now) expression.now) (option_map (checked_expr terms.now) post_join_filter.now) type_ progress) }
{
    let right = input(deeper, terms, progress, number, right);
    let (left, (right, progress)) = beside(left, right)?;
    join_as(
        deeper,
        terms,
        progress,
        number,
        common,
        left,
        right,
        expression,
        post_join_filter,
        type_,
    )
}

/// The kind of join of a number.
fn kind_of(number: u32, type_: u32) -> Result<JoinKind, CheckError>
    ensures { Agrees result number (ok_or (spec.join_kind type_) rules.UnsupportedForm) }
{
    match join_kind(type_) {
        Some(kind) => Ok(kind),
        None => refuse(number, Rule::UnsupportedForm),
    }
}

/// A join of these inputs, of the kind with this number.
fn join_as<D: Deeper>(
    deeper: &D,
    terms: &Terms<'_>,
    progress: Progress,
    number: u32,
    common: &Option<RelCommon>,
    left: Rel,
    right: Rel,
    expression: &Option<Boxed<RawExpr>>,
    post_join_filter: &Option<Boxed<RawExpr>>,
    type_: u32,
) -> Result<(Rel, Progress), CheckError>
    requires { D.is_ready deeper.now }
    ensures { Comes result (joins.join_as number common.now left right (option_map (checked_expr terms.now) expression.now) (option_map (checked_expr terms.now) post_join_filter.now) type_ progress) }
{
    let ((left, right), kind) = beside((left, right), kind_of(number, type_))?;
    join_over(
        deeper,
        terms,
        progress,
        number,
        common,
        left,
        right,
        kind,
        expression,
        post_join_filter,
    )
}

/// The condition over the columns of both inputs.
fn on_condition<D: Deeper>(
    deeper: &D,
    terms: &Terms<'_>,
    progress: Progress,
    number: u32,
    left: &Rel,
    right: &Rel,
    expression: &Option<Boxed<RawExpr>>,
) -> Result<(Expr, Progress), CheckError>
    requires { D.is_ready deeper.now }
    ensures { Comes result (condition (spec.over number (columns_of left.now ++ columns_of right.now)) (option_map (checked_expr terms.now) expression.now) progress) }
{
    let both = joined(
        terms.alloc(),
        left.columns.as_slice(),
        right.columns.as_slice(),
    )?;
    condition_box(deeper, terms, progress, number, both.as_slice(), expression)
}

/// The later condition, over the columns that the join gives.
fn later_condition<D: Deeper>(
    deeper: &D,
    terms: &Terms<'_>,
    progress: Progress,
    number: u32,
    left: &Rel,
    right: &Rel,
    kind: JoinKind,
    post_join_filter: &Option<Boxed<RawExpr>>,
) -> Result<(Option<Expr>, Progress), CheckError>
    requires { D.is_ready deeper.now }
    ensures { Comes result (spec.maybe_condition (spec.over number (spec.join_columns kind (columns_of left.now) (columns_of right.now))) (option_map (checked_expr terms.now) post_join_filter.now) progress) }
{
    let columns = join_columns(
        terms.alloc(),
        kind,
        left.columns.as_slice(),
        right.columns.as_slice(),
    )?;
    maybe_condition(
        deeper,
        terms,
        progress,
        number,
        columns.as_slice(),
        post_join_filter,
    )
}

/// The conditions of a join: one over the columns of both, and a later one over what the join gives.
fn join_over<D: Deeper>(
    deeper: &D,
    terms: &Terms<'_>,
    progress: Progress,
    number: u32,
    common: &Option<RelCommon>,
    left: Rel,
    right: Rel,
    kind: JoinKind,
    expression: &Option<Boxed<RawExpr>>,
    post_join_filter: &Option<Boxed<RawExpr>>,
) -> Result<(Rel, Progress), CheckError>
    requires { D.is_ready deeper.now }
    ensures { Comes result (spec.join_over number common.now left right kind (option_map (checked_expr terms.now) expression.now) (option_map (checked_expr terms.now) post_join_filter.now) progress) }
{
    let on = on_condition(deeper, terms, progress, number, &left, &right, expression);
    let ((left, right), (on, progress)) = beside((left, right), on)?;
    join_with(
        deeper,
        terms,
        progress,
        number,
        common,
        left,
        right,
        kind,
        on,
        post_join_filter,
    )
}

/// A join with this condition, and perhaps a later one.
fn join_with<D: Deeper>(
    deeper: &D,
    terms: &Terms<'_>,
    progress: Progress,
    number: u32,
    common: &Option<RelCommon>,
    left: Rel,
    right: Rel,
    kind: JoinKind,
    on: Expr,
    post_join_filter: &Option<Boxed<RawExpr>>,
) -> Result<(Rel, Progress), CheckError>
    requires { D.is_ready deeper.now }
    ensures { Comes result (joins.join_with number common.now left right kind on (option_map (checked_expr terms.now) post_join_filter.now) progress) }
{
    let post = later_condition(
        deeper,
        terms,
        progress,
        number,
        &left,
        &right,
        kind,
        post_join_filter,
    );
    let ((left, right, on), (post, progress)) = beside((left, right, on), post)?;
    part(
        join_of(terms.alloc(), number, common, left, right, kind, on, post),
        progress,
    )
}

/// Every row of the one input with every row of the other.
pub(crate) fn cross<D: Deeper>(
    deeper: &D,
    terms: &Terms<'_>,
    progress: Progress,
    number: u32,
    common: &Option<RelCommon>,
    left: &Option<Boxed<RawRel>>,
    right: &Option<Boxed<RawRel>>,
) -> Result<(Rel, Progress), CheckError>
    requires { D.is_ready deeper.now }
    ensures { Comes result (spec.cross number common.now (option_map (checked_rel terms.now) left.now) (option_map (checked_rel terms.now) right.now) progress) }
{
    let (left, progress) = input(deeper, terms, progress, number, left)?;
    cross_behind(deeper, terms, progress, number, common, left, right)
}

/// This left input with a right one.
fn cross_behind<D: Deeper>(
    deeper: &D,
    terms: &Terms<'_>,
    progress: Progress,
    number: u32,
    common: &Option<RelCommon>,
    left: Rel,
    right: &Option<Boxed<RawRel>>,
) -> Result<(Rel, Progress), CheckError>
    requires { D.is_ready deeper.now }
    ensures { Comes result (joins.cross_behind number common.now left (option_map (checked_rel terms.now) right.now) progress) }
{
    let right = input(deeper, terms, progress, number, right);
    let (left, (right, progress)) = beside(left, right)?;
    part(
        cross_of(terms.alloc(), number, common, left, right),
        progress,
    )
}
