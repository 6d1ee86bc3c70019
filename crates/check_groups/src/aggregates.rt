// Aggregates (Substrait `AggregateRel`).
ghost use Rattle.std.specs.Prelude.{map};
ghost use Rattle.std.specs.Option.{option_map};
ghost use Rattle.plan_typed.specs.Types.{columns_of};
ghost use Rattle.check_groups.specs.Capped.{capped_groups_in as capped_groups_as, capped_over as capped_as, capped_with as capped_with_as, too_many as too_many_as};
ghost use Rattle.check_groups.specs.Over.{aggregate_with as aggregate_with_as};
ghost use Rattle.plan_verdict.specs.Aggregates as spec;
ghost use Rattle.plan_verdict.specs.Checking.{Comes, in_order};
ghost use Rattle.plan_verdict.specs.Rels.{over};
ghost use Rattle.plan_verdict.specs.Verdict.{checked_expr, checked_grouping, checked_measure, checked_rel};

use crate::aggregate_columns::aggregate_of;
use crate::groups::groups_in;
use crate::measure::measure;
use check_exprs::{Deeper, Terms, each_of, input, part};
use plan_leaves::{Boxed, Items, RelCommon};
use plan_raw::{Grouping, Measure, RawExpr, RawRel};
use plan_rules::{beside, must};
use plan_typed::{Rel, SetMeasure};
use plan_verdict::{CheckError, Groups, Progress, Rule};
use std::mem::drop;
use sub_types::Ty;

/// The most groupings of an aggregate.
const MAX_GROUPINGS: usize = 64;

/// The input, the groupings and the measures.
pub fn aggregate<D: Deeper>(
    deeper: &D,
    terms: &Terms<'_>,
    progress: Progress,
    number: u32,
    common: &Option<RelCommon>,
    written: &Option<Boxed<RawRel>>,
    groupings: &[Grouping],
    measures: &[Measure],
    expressions: &[RawExpr],
) -> Result<(Rel, Progress), CheckError>
    requires { D.is_ready deeper.now }
    ensures { Comes result (spec.aggregate number common.now (option_map (checked_rel terms.now) written.now) (map (checked_grouping terms.now) groupings.now) (map (checked_measure terms.now) measures.now) (map (checked_expr terms.now) expressions.now) progress) }
{
    let checked = input(deeper, terms, progress, number, written)?;
    let few = groupings.len() <= MAX_GROUPINGS;
    let (rel, progress) = must(number, few, Rule::TooMany, checked)?;
    aggregate_over(
        deeper,
        terms,
        progress,
        number,
        common,
        rel,
        groupings,
        measures,
        expressions,
    )
}

/// The groupings and the measures over this input.
fn aggregate_over<D: Deeper>(
    deeper: &D,
    terms: &Terms<'_>,
    progress: Progress,
    number: u32,
    common: &Option<RelCommon>,
    rel: Rel,
    groupings: &[Grouping],
    measures: &[Measure],
    expressions: &[RawExpr],
) -> Result<(Rel, Progress), CheckError>
    requires { D.is_ready deeper.now }
    ensures { Comes result (spec.aggregate_over number common.now rel (map (checked_grouping terms.now) groupings.now) (map (checked_measure terms.now) measures.now) (map (checked_expr terms.now) expressions.now) progress) }
{
    capped_over(
        deeper,
        terms,
        progress,
        number,
        common,
        rel,
        groupings,
        measures,
        expressions,
    )
}

/// The same, without the groups once there are too many: what comes behind them is checked, and then they are refused.
fn capped_over<D: Deeper>(
    deeper: &D,
    terms: &Terms<'_>,
    progress: Progress,
    number: u32,
    common: &Option<RelCommon>,
    rel: Rel,
    groupings: &[Grouping],
    measures: &[Measure],
    expressions: &[RawExpr],
) -> Result<(Rel, Progress), CheckError>
    requires { D.is_ready deeper.now }
    ensures { Comes result (capped_as number common.now rel (map (checked_grouping terms.now) groupings.now) (map (checked_measure terms.now) measures.now) (map (checked_expr terms.now) expressions.now) progress) }
{
    let found = groups_over(
        deeper,
        terms,
        progress,
        number,
        &rel,
        expressions,
        groupings,
    );
    let (rel, (found, progress)) = beside(rel, found)?;
    capped_with(
        deeper, terms, progress, number, common, rel, found, measures,
    )
}

/// The groups and sets over the columns of a relation, unless there are too many groups.
fn groups_over<D: Deeper>(
    deeper: &D,
    terms: &Terms<'_>,
    progress: Progress,
    number: u32,
    rel: &Rel,
    expressions: &[RawExpr],
    groupings: &[Grouping],
) -> Result<(Option<Groups>, Progress), CheckError>
    requires { D.is_ready deeper.now }
    ensures { Comes result (capped_groups_as (over number (columns_of rel.now)) (map (checked_expr terms.now) expressions.now) (map (checked_grouping terms.now) groupings.now) progress) }
{
    groups_in(
        deeper,
        terms,
        progress,
        number,
        rel.columns.as_slice(),
        expressions,
        groupings,
    )
}

/// The measures over this input, and these groups, unless there are too many.
fn capped_with<D: Deeper>(
    deeper: &D,
    terms: &Terms<'_>,
    progress: Progress,
    number: u32,
    common: &Option<RelCommon>,
    rel: Rel,
    found: Option<Groups>,
    measures: &[Measure],
) -> Result<(Rel, Progress), CheckError>
    requires { D.is_ready deeper.now }
    ensures { Comes result (capped_with_as number common.now rel found (map (checked_measure terms.now) measures.now) progress) }
{
    let Some(found) = found else {
        return too_many(deeper, terms, progress, number, &rel, measures);
    };
    aggregate_with(
        deeper, terms, progress, number, common, rel, found, measures,
    )
}

/// The measures over this input, and then the refusal of its groups.
fn too_many<D: Deeper>(
    deeper: &D,
    terms: &Terms<'_>,
    progress: Progress,
    number: u32,
    rel: &Rel,
    measures: &[Measure],
) -> Result<(Rel, Progress), CheckError>
    requires { D.is_ready deeper.now }
    ensures { Comes result (too_many_as number rel.now (map (checked_measure terms.now) measures.now) progress) }
{
    let (checked, _) = measures_over(deeper, terms, progress, number, rel, measures)?;
    drop(checked);
    Err(CheckError::Refused {
        relation: number,
        rule: Rule::TooMany,
    })
}

/// The measures over this input, and these groups.
fn aggregate_with<D: Deeper>(
    deeper: &D,
    terms: &Terms<'_>,
    progress: Progress,
    number: u32,
    common: &Option<RelCommon>,
    rel: Rel,
    found: Groups,
    measures: &[Measure],
) -> Result<(Rel, Progress), CheckError>
    requires { D.is_ready deeper.now }
    ensures { Comes result (aggregate_with_as number common.now rel found (map (checked_measure terms.now) measures.now) progress) }
{
    let checked = measures_over(deeper, terms, progress, number, &rel, measures);
    let ((rel, found), (checked, progress)) = beside((rel, found), checked)?;
    part(
        aggregate_of(terms.alloc(), number, common, rel, found, checked),
        progress,
    )
}

/// The measures over the columns of a relation.
fn measures_over<D: Deeper>(
    deeper: &D,
    terms: &Terms<'_>,
    progress: Progress,
    number: u32,
    rel: &Rel,
    measures: &[Measure],
) -> Result<(Items<SetMeasure>, Progress), CheckError>
    requires { D.is_ready deeper.now }
    ensures { Comes result (in_order (map (λ one. one (over number (columns_of rel.now))) (map (checked_measure terms.now) measures.now)) progress) }
{
    each_measure(
        deeper,
        terms,
        progress,
        number,
        rel.columns.as_slice(),
        measures,
    )
}

fn each_measure<D: Deeper>(
    deeper: &D,
    terms: &Terms<'_>,
    progress: Progress,
    number: u32,
    columns: &[Ty],
    measures: &[Measure],
) -> Result<(Items<SetMeasure>, Progress), CheckError>
    requires { D.is_ready deeper.now }
    ensures { Comes result (in_order (map (λ one. one (over number columns.now)) (map (checked_measure terms.now) measures.now)) progress) }
{
    each_of(terms.alloc(), progress, measures, |progress, one| {
        measure(deeper, terms, progress, number, columns, one)
    })
}
