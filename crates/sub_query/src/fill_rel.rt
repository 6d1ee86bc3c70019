// Relations with the values of subqueries put in.
ghost use Rattle.std.specs.Prelude.{◌≡◌, IfOk, map};
ghost use Rattle.plan_denote.specs.Holes.{filled};
ghost use Rattle.sub_query.specs.Known.{known_seen, worths_at};
ghost use Rattle.sub_query.specs.Parts.{op_with};

use crate::KnownWorth;
use crate::fill_parts::{
    fill_aggregate, fill_columns, fill_condition, fill_group_sets, fill_join, fill_keys, fill_read,
};
use crate::node_worths::NodeWorths;
use plan_leaves::{Boxed, CopyIn, Items, zip};
use plan_typed::{Op, Rel};
use std::alloc::Global;
use sub_types::NoMemory;

/// The relation with what is known put in. It is the relation as it was checked, so that options that are put in are never
/// counted; of several that go to one node the first counts.
pub fn filled_rel(alloc: Global, rel: &Rel, known: &[KnownWorth]) -> Result<Rel, NoMemory>
    ensures { IfOk result (λ made. made ≡ filled (known_seen known.now) rel.now) }
{
    fill_rel(alloc, rel, known)
}

#[cycle(fill_rel)]
fn fill_rel(alloc: Global, rel: &Rel, known: &[KnownWorth]) -> Result<Rel, NoMemory>
    ensures { IfOk result (λ made. made ≡ filled (known_seen known.now) rel.now) }
{
    let worths = NodeWorths::of_relation(alloc, known, rel.number)?;
    let lists = zip(rel.emit.copy_in(alloc), rel.columns.copy_in(alloc));
    let (op, (emit, columns)) = zip(fill_op(alloc, &rel.op, known, &worths), lists)?;
    Ok(Rel {
        number: rel.number,
        op,
        emit,
        columns,
    })
}

#[cycle(fill_rel)]
fn fill_boxed(alloc: Global, rel: &Boxed<Rel>, known: &[KnownWorth]) -> Result<Boxed<Rel>, NoMemory>
    ensures { IfOk result (λ made. made ≡ filled (known_seen known.now) rel.now) }
{
    Boxed::new(alloc, fill_rel(alloc, rel.get(), known)?)
}

#[cycle(fill_rel)]
fn fill_rels(alloc: Global, rels: &[Rel], known: &[KnownWorth]) -> Result<Items<Rel>, NoMemory>
    ensures { IfOk result (λ made. made ≡ map (filled (known_seen known.now)) rels.now) }
{
    let mut made = Vec::with_capacity(alloc, rels.len())?;
    for rel in rels {
        made.push(fill_rel(alloc, rel, known)?)?;
    }
    Ok(Items::from_vec(made))
}

/// What a relation does, by what goes to its own nodes.
#[cycle(fill_rel)]
fn fill_op(
    alloc: Global,
    op: &Op,
    known: &[KnownWorth],
    worths: &NodeWorths,
) -> Result<Op, NoMemory>
    ensures { IfOk result (λ made. made ≡ op_with (known_seen known.now) (worths_at worths.now) op.now) }
{
    match op {
        Op::Read {
            source,
            names,
            types,
            filter,
            mask,
        } => {
            let columns = zip(names.copy_in(alloc), types.copy_in(alloc));
            let rows = fill_read(alloc, source, filter, worths);
            let (((names, types), mask), (source, filter)) = zip(
                zip(columns, mask.copy_in(alloc)),
                rows,
            )?;
            Ok(Op::Read {
                source,
                names,
                types,
                filter,
                mask,
            })
        }
        Op::Filter { input, condition } => {
            let input = fill_boxed(alloc, input, known);
            let (input, condition) = zip(input, fill_condition(alloc, condition, worths))?;
            Ok(Op::Filter { input, condition })
        }
        Op::Project { input, exprs } => {
            let input = fill_boxed(alloc, input, known);
            let (input, exprs) = zip(input, fill_columns(alloc, exprs.as_slice(), worths))?;
            Ok(Op::Project { input, exprs })
        }
        Op::Fetch {
            input,
            offset,
            count,
        } => Ok(Op::Fetch {
            input: fill_boxed(alloc, input, known)?,
            offset: *offset,
            count: *count,
        }),
        Op::Sort { input, keys } => {
            let input = fill_boxed(alloc, input, known);
            let (input, keys) = zip(input, fill_keys(alloc, keys.as_slice(), worths))?;
            Ok(Op::Sort { input, keys })
        }
        Op::Aggregate {
            input,
            groups,
            measures,
        } => {
            let lists = fill_aggregate(alloc, groups.as_slice(), measures.as_slice(), worths);
            let (input, (groups, measures)) = zip(fill_boxed(alloc, input, known), lists)?;
            Ok(Op::Aggregate {
                input,
                groups,
                measures,
            })
        }
        Op::GroupSets {
            input,
            groups,
            sets,
            measures,
        } => {
            let lists = fill_group_sets(alloc, groups.as_slice(), measures.as_slice(), worths);
            let inputs = zip(fill_boxed(alloc, input, known), sets.copy_in(alloc));
            let ((input, sets), (groups, measures)) = zip(inputs, lists)?;
            Ok(Op::GroupSets {
                input,
                groups,
                sets,
                measures,
            })
        }
        Op::Join {
            left,
            right,
            kind,
            on,
            post,
        } => {
            let inputs = zip(
                fill_boxed(alloc, left, known),
                fill_boxed(alloc, right, known),
            );
            let ((left, right), (on, post)) = zip(inputs, fill_join(alloc, on, post, worths))?;
            Ok(Op::Join {
                left,
                right,
                kind: *kind,
                on,
                post,
            })
        }
        Op::Cross { left, right } => {
            let left = fill_boxed(alloc, left, known);
            let (left, right) = zip(left, fill_boxed(alloc, right, known))?;
            Ok(Op::Cross { left, right })
        }
        Op::Set { inputs, op } => Ok(Op::Set {
            inputs: fill_rels(alloc, inputs.as_slice(), known)?,
            op: *op,
        }),
    }
}
