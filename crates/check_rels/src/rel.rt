// Relations (Substrait `Rel`).
ghost use Rattle.std.specs.Prelude.{map};
ghost use Rattle.std.specs.Option.{option_map};
ghost use Rattle.plan_verdict.specs.Checking.{Comes, in_order};
ghost use Rattle.plan_verdict.specs.Relation as spec;
ghost use Rattle.plan_verdict.specs.Verdict.{checked_rel};

use crate::fetch::fetch;
use crate::filter::{filter, project};
use crate::join::{cross, join};
use crate::read::read;
use crate::set::set;
use crate::sort::sort;
use check_exprs::{Deeper, Terms, each_of, next_relation, nodes_from, refuse};
use check_groups::aggregate;
use plan_leaves::{Boxed, Items};
use plan_raw::RawRel;
use plan_typed::Rel;
use plan_verdict::{CheckError, Progress, Rule};

/// A relation with the next number, whose expressions are numbered from 0.
pub fn relation_by<D: Deeper>(
    deeper: &D,
    terms: &Terms<'_>,
    progress: Progress,
    rel: &RawRel,
) -> Result<(Rel, Progress), CheckError>
    requires { D.is_ready deeper.now }
    ensures { Comes result (spec.numbered (checked_rel terms.now rel.now) progress) }
{
    let (number, progress) = next_relation(progress)?;
    let outer = progress.nodes;
    let progress = nodes_from(progress, 0);
    let (checked, progress) = member(deeper, terms, progress, number, rel)?;
    Ok((checked, nodes_from(progress, outer)))
}

/// Each of these inputs, in order.
pub(crate) fn inputs<D: Deeper>(
    deeper: &D,
    terms: &Terms<'_>,
    progress: Progress,
    written: &[RawRel],
) -> Result<(Items<Rel>, Progress), CheckError>
    requires { D.is_ready deeper.now }
    ensures { Comes result (in_order (map spec.numbered (map (checked_rel terms.now) written.now)) progress) }
{
    each_of(terms.alloc(), progress, written, |progress, rel| {
        deeper.relation(terms, progress, rel)
    })
}

/// A relation with this number, by its member.
fn member<D: Deeper>(
    deeper: &D,
    terms: &Terms<'_>,
    progress: Progress,
    number: u32,
    rel: &RawRel,
) -> Result<(Rel, Progress), CheckError>
    requires { D.is_ready deeper.now }
    ensures { Comes result (checked_rel terms.now rel.now number progress) }
{
    match rel {
        RawRel::Missing => refuse(number, Rule::MissingField),
        RawRel::Unknown { number: unknown } => {
            refuse(number, Rule::UnknownRelation { number: *unknown })
        }
        RawRel::Read {
            common,
            base_schema,
            filter,
            projection,
            source,
            ..
        } => read(
            deeper,
            terms,
            progress,
            number,
            common,
            base_schema,
            filter,
            projection,
            source,
        ),
        RawRel::Filter {
            common,
            input,
            condition,
        } => filter(deeper, terms, progress, number, common, input, condition),
        RawRel::Fetch {
            common,
            input,
            offset,
            count,
        } => fetch(
            deeper, terms, progress, number, common, input, offset, count,
        ),
        RawRel::Aggregate {
            common,
            input,
            groupings,
            measures,
            grouping_expressions,
        } => aggregate(
            deeper,
            terms,
            progress,
            number,
            common,
            input,
            groupings.as_slice(),
            measures.as_slice(),
            grouping_expressions.as_slice(),
        ),
        RawRel::Sort {
            common,
            input,
            sorts,
        } => sort(
            deeper,
            terms,
            progress,
            number,
            common,
            input,
            sorts.as_slice(),
        ),
        RawRel::Join {
            common,
            left,
            right,
            expression,
            post_join_filter,
            type_,
        } => join(
            deeper,
            terms,
            progress,
            number,
            common,
            left,
            right,
            expression,
            post_join_filter,
            *type_,
        ),
        RawRel::Project {
            common,
            input,
            expressions,
        } => project(
            deeper,
            terms,
            progress,
            number,
            common,
            input,
            expressions.as_slice(),
        ),
        RawRel::Set { common, inputs, op } => {
            set(
                deeper,
                terms,
                progress,
                number,
                common,
                inputs.as_slice(),
                *op,
            )
        }
        RawRel::Cross {
            common,
            left,
            right,
        } => cross(deeper, terms, progress, number, common, left, right),
    }
}
