// Sorts (Substrait `SortRel` and `SortField`).
ghost use Rattle.std.specs.Prelude.{map};
ghost use Rattle.plan_verdict.specs.Checking.{in_order};
ghost use Rattle.std.specs.Option.{option_map};
ghost use Rattle.check_rels.specs.Inputs as inputs;
ghost use Rattle.plan_typed.specs.Types.{columns_of};
ghost use Rattle.plan_verdict.specs.Checking.{Comes};
ghost use Rattle.plan_verdict.specs.Rels as spec;
ghost use Rattle.plan_verdict.specs.Verdict.{checked_expr, checked_rel, checked_sort};

use crate::made::sort_of;
use check_exprs::{Deeper, Terms, each_of, input, part, refuse, required};
use plan_leaves::{Boxed, Items, RelCommon};
use plan_raw::{RawExpr, RawRel, SortField};
use plan_rules::{beside, direction_of};
use plan_typed::{Rel, SortKey};
use plan_verdict::{CheckError, Progress, Rule};
use sub_types::Ty;

/// The input, and keys over its columns.
pub(crate) fn sort<D: Deeper>(
    deeper: &D,
    terms: &Terms<'_>,
    progress: Progress,
    number: u32,
    common: &Option<RelCommon>,
    written: &Option<Boxed<RawRel>>,
    sorts: &[SortField],
) -> Result<(Rel, Progress), CheckError>
    requires { D.is_ready deeper.now }
    ensures { Comes result (spec.sort number common.now (option_map (checked_rel terms.now) written.now) (map (checked_sort terms.now) sorts.now) progress) }
{
    let (rel, progress) = input(deeper, terms, progress, number, written)?;
    sort_over(deeper, terms, progress, number, common, rel, sorts)
}

/// Keys over the columns of this input.
fn sort_over<D: Deeper>(
    deeper: &D,
    terms: &Terms<'_>,
    progress: Progress,
    number: u32,
    common: &Option<RelCommon>,
    rel: Rel,
    sorts: &[SortField],
) -> Result<(Rel, Progress), CheckError>
    requires { D.is_ready deeper.now }
    ensures { Comes result (inputs.sort_over number common.now rel (map (checked_sort terms.now) sorts.now) progress) }
{
    let keys = keys_over(deeper, terms, progress, number, &rel, sorts);
    let (rel, (keys, progress)) = beside(rel, keys)?;
    part(sort_of(terms.alloc(), number, common, rel, keys), progress)
}

/// Keys over the columns of a relation.
fn keys_over<D: Deeper>(
    deeper: &D,
    terms: &Terms<'_>,
    progress: Progress,
    number: u32,
    rel: &Rel,
    sorts: &[SortField],
) -> Result<(Items<SortKey>, Progress), CheckError>
    requires { D.is_ready deeper.now }
    ensures { Comes result (in_order (map (λ key. key (spec.over number (columns_of rel.now))) (map (checked_sort terms.now) sorts.now)) progress) }
{
    sort_keys(
        deeper,
        terms,
        progress,
        number,
        rel.columns.as_slice(),
        sorts,
    )
}

fn sort_keys<D: Deeper>(
    deeper: &D,
    terms: &Terms<'_>,
    progress: Progress,
    number: u32,
    columns: &[Ty],
    sorts: &[SortField],
) -> Result<(Items<SortKey>, Progress), CheckError>
    requires { D.is_ready deeper.now }
    ensures { Comes result (in_order (map (λ key. key (spec.over number columns.now)) (map (checked_sort terms.now) sorts.now)) progress) }
{
    each_of(terms.alloc(), progress, sorts, |progress, sort| {
        sort_key(deeper, terms, progress, number, columns, sort)
    })
}

fn sort_key<D: Deeper>(
    deeper: &D,
    terms: &Terms<'_>,
    progress: Progress,
    number: u32,
    columns: &[Ty],
    sort: &SortField,
) -> Result<(SortKey, Progress), CheckError>
    requires { D.is_ready deeper.now }
    ensures { Comes result (checked_sort terms.now sort.now (spec.over number columns.now) progress) }
{
    key_by(
        deeper,
        terms,
        progress,
        number,
        columns,
        &sort.expr,
        sort.direction,
    )
}

/// A key by an expression in a direction.
fn key_by<D: Deeper>(
    deeper: &D,
    terms: &Terms<'_>,
    progress: Progress,
    number: u32,
    columns: &[Ty],
    expr: &Option<RawExpr>,
    direction: u32,
) -> Result<(SortKey, Progress), CheckError>
    requires { D.is_ready deeper.now }
    ensures { Comes result (spec.sort_key (option_map (checked_expr terms.now) expr.now) direction (spec.over number columns.now) progress) }
{
    let (expr, progress) = required(deeper, terms, progress, number, columns, expr)?;
    let Some((descending, nulls_first)) = direction_of(direction) else {
        return refuse(number, Rule::UnsupportedForm);
    };
    let key = SortKey {
        expr,
        descending,
        nulls_first,
    };
    Ok((key, progress))
}
