// The groupings of aggregates (Substrait `AggregateRel.Grouping`).
ghost use Rattle.std.specs.Prelude.{◌≡◌, ◌∷◌, [], IfOk, map};
ghost use Rattle.std.specs.Option.{option_map};
ghost use Rattle.check_groups.specs.Capped as capped;
ghost use Rattle.plan_verdict.specs.Aggregates as spec;
ghost use Rattle.plan_verdict.specs.Checking.{Comes};
ghost use Rattle.plan_verdict.specs.Rels.{over};
ghost use Rattle.plan_verdict.specs.Verdict.{checked_expr, checked_grouping};

use crate::group_places::{no_groups, one_set, references_of};
use check_exprs::{Deeper, Terms, each_in, nodes_from};
use plan_keys::{GroupIndex, GroupPlace};
use plan_leaves::Items;
use plan_raw::{Grouping, RawExpr};
use plan_rules::sets_of_places;
use plan_verdict::{CheckError, Group, Groups, Progress};
use std::mem::drop;
use sub_types::{NoMemory, Ty};

/// The most columns of a relation, so that more groups are too many.
const MAX_COLUMNS: usize = 1024;

/// The groups and sets, unless there are too many groups: the groupings refer to the aggregate's own expressions, if it
/// has some.
pub(crate) fn groups_in<D: Deeper>(
    deeper: &D,
    terms: &Terms<'_>,
    progress: Progress,
    number: u32,
    columns: &[Ty],
    expressions: &[RawExpr],
    groupings: &[Grouping],
) -> Result<(Option<Groups>, Progress), CheckError>
    requires { D.is_ready deeper.now }
    ensures { Comes result (capped.capped_groups_in (over number columns.now) (map (checked_expr terms.now) expressions.now) (map (checked_grouping terms.now) groupings.now) progress) }
{
    if expressions.is_empty() {
        written_out(deeper, terms, progress, number, columns, groupings)
    } else {
        let (found, progress) = referred(
            deeper,
            terms,
            progress,
            number,
            columns,
            expressions,
            groupings,
        )?;
        Ok((Some(found), progress))
    }
}

/// Groupings that refer to the aggregate's own expressions.
fn referred<D: Deeper>(
    deeper: &D,
    terms: &Terms<'_>,
    progress: Progress,
    number: u32,
    columns: &[Ty],
    expressions: &[RawExpr],
    groupings: &[Grouping],
) -> Result<(Groups, Progress), CheckError>
    requires { D.is_ready deeper.now }
    ensures { Comes result (spec.referred (over number columns.now) (map (checked_expr terms.now) expressions.now) (map (checked_grouping terms.now) groupings.now) progress) }
{
    let (groups, progress) = each_in(deeper, terms, progress, number, columns, expressions)?;
    let references = references_of(terms.alloc(), groupings)?;
    let sets = sets_of_places(terms.alloc(), number, groups.len(), references)?;
    Ok((Groups { groups, sets }, progress))
}

/// Groupings with expressions of their own: those of one stay as they are written.
fn written_out<D: Deeper>(
    deeper: &D,
    terms: &Terms<'_>,
    progress: Progress,
    number: u32,
    columns: &[Ty],
    groupings: &[Grouping],
) -> Result<(Option<Groups>, Progress), CheckError>
    requires { D.is_ready deeper.now }
    ensures { Comes result (capped.capped_written_out (over number columns.now) (map (checked_grouping terms.now) groupings.now) progress) }
{
    match groupings {
        [] => Ok((Some(no_groups(terms.alloc())?), progress)),
        [one] => one_written_out(deeper, terms, progress, number, columns, one),
        _ => several_written_out(deeper, terms, progress, number, columns, groupings),
    }
}

/// One grouping, whose expressions stay as they are written.
fn one_written_out<D: Deeper>(
    deeper: &D,
    terms: &Terms<'_>,
    progress: Progress,
    number: u32,
    columns: &[Ty],
    one: &Grouping,
) -> Result<(Option<Groups>, Progress), CheckError>
    requires { D.is_ready deeper.now }
    ensures { Comes result (capped.capped_written_out (over number columns.now) (checked_grouping terms.now one.now ∷ []) progress) }
{
    let expressions = one.grouping_expressions.as_slice();
    let (groups, progress) = each_in(deeper, terms, progress, number, columns, expressions)?;
    Ok((Some(one_set(terms.alloc(), groups)?), progress))
}

/// Several groupings, with equal expressions once, unless there are too many groups.
fn several_written_out<D: Deeper>(
    deeper: &D,
    terms: &Terms<'_>,
    progress: Progress,
    number: u32,
    columns: &[Ty],
    groupings: &[Grouping],
) -> Result<(Option<Groups>, Progress), CheckError>
    requires { D.is_ready deeper.now }
    ensures { Comes result (capped.capped_several (over number columns.now) (map (checked_grouping terms.now) groupings.now) progress) }
{
    let none = Some(GroupIndex::new(terms.alloc()));
    let ((groups, sets), progress) = sets_in(
        deeper, terms, progress, number, columns, none, groupings,
    )?;
    Ok((groups_with(groups, sets)?, progress))
}

/// The expressions of the groups, with these sets.
fn groups_with(
    groups: Option<GroupIndex>,
    sets: Items<Items<u32>>,
) -> Result<Option<Groups>, NoMemory>
    ensures { IfOk result (λ found. found ≡ option_map (capped.groups_with sets) groups) }
{
    let Some(groups) = groups else {
        return Ok(None);
    };
    let groups = groups.into_exprs()?;
    Ok(Some(Groups { groups, sets }))
}

/// The places of each grouping's expressions among the groups, equal ones once.
fn sets_in<D: Deeper>(
    deeper: &D,
    terms: &Terms<'_>,
    progress: Progress,
    number: u32,
    columns: &[Ty],
    groups: Option<GroupIndex>,
    groupings: &[Grouping],
) -> Result<((Option<GroupIndex>, Items<Items<u32>>), Progress), CheckError>
    requires { D.is_ready deeper.now }
    ensures { Comes result (capped.capped_sets_in (over number columns.now) groups (map (checked_grouping terms.now) groupings.now) progress) }
{
    let mut progress = progress;
    let mut groups = groups;
    let mut sets = Items::new(terms.alloc());
    for grouping in groupings {
        let expressions = grouping.grouping_expressions.as_slice();
        let ((more, one), after) = set_in(
            deeper,
            terms,
            progress,
            number,
            columns,
            groups,
            expressions,
        )?;
        progress = after;
        groups = more;
        sets.push(one)?;
    }
    Ok(((groups, sets), progress))
}

/// The places of a grouping's expressions among the groups.
fn set_in<D: Deeper>(
    deeper: &D,
    terms: &Terms<'_>,
    progress: Progress,
    number: u32,
    columns: &[Ty],
    groups: Option<GroupIndex>,
    expressions: &[RawExpr],
) -> Result<((Option<GroupIndex>, Items<u32>), Progress), CheckError>
    requires { D.is_ready deeper.now }
    ensures { Comes result (capped.capped_set_in (over number columns.now) groups (map (checked_expr terms.now) expressions.now) progress) }
{
    let mut progress = progress;
    let mut groups = groups;
    let mut places = Items::new(terms.alloc());
    for written in expressions {
        let ((more, one), after) = capped_group_in(
            deeper, terms, progress, number, columns, groups, written,
        )?;
        progress = after;
        groups = more;
        places.push(one)?;
    }
    Ok(((groups, places), progress))
}

/// The groups with a grouping expression, and its place. Behind too many groups it is checked and let go.
fn capped_group_in<D: Deeper>(
    deeper: &D,
    terms: &Terms<'_>,
    progress: Progress,
    number: u32,
    columns: &[Ty],
    groups: Option<GroupIndex>,
    written: &RawExpr,
) -> Result<((Option<GroupIndex>, u32), Progress), CheckError>
    requires { D.is_ready deeper.now }
    ensures { Comes result (capped.capped_group_in (over number columns.now) groups (checked_expr terms.now written.now) progress) }
{
    let Some(groups) = groups else {
        let (expr, progress) = deeper.expression(terms, progress, number, columns, written)?;
        drop(expr);
        return Ok(((None, 0), progress));
    };
    let ((more, place), progress) = group_in(
        deeper, terms, progress, number, columns, groups, written,
    )?;
    Ok(((few_groups(more), place), progress))
}

/// The groups, unless there are too many.
fn few_groups(groups: GroupIndex) -> Option<GroupIndex>
    ensures { result ≡ capped.few_groups groups }
{
    if groups.len() <= MAX_COLUMNS {
        Some(groups)
    } else {
        drop(groups);
        None
    }
}

/// The groups with a grouping expression, and its place: that of an equal one, or a new one.
fn group_in<D: Deeper>(
    deeper: &D,
    terms: &Terms<'_>,
    progress: Progress,
    number: u32,
    columns: &[Ty],
    groups: GroupIndex,
    written: &RawExpr,
) -> Result<((GroupIndex, u32), Progress), CheckError>
    requires { D.is_ready deeper.now }
    ensures { Comes result (spec.group_in (over number columns.now) groups (checked_expr terms.now written.now) progress) }
{
    let node = progress.nodes;
    let before = progress.relations;
    let (expr, progress) = deeper.expression(terms, progress, number, columns, written)?;
    let holds_subquery = progress.relations != before;
    placed(
        progress,
        groups,
        node,
        Group {
            expr,
            holds_subquery,
        },
    )
}

/// The groups with one more, and its place.
fn placed(
    progress: Progress,
    groups: GroupIndex,
    node: u32,
    group: Group,
) -> Result<((GroupIndex, u32), Progress), CheckError>
    ensures { Comes result (spec.placed groups node group progress) }
{
    let mut groups = groups;
    match groups.find_or_push(group)? {
        GroupPlace::Found(place) => Ok(((groups, place), nodes_from(progress, node))),
        GroupPlace::New(place) => Ok(((groups, place), progress)),
    }
}
