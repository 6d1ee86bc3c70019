// How far a plan is checked. A number that doesn't fit finds no memory.
ghost use Rattle.std.specs.Prelude.{◌≡◌};
ghost use Rattle.plan_verdict.specs.Checking as spec;
ghost use Rattle.plan_verdict.specs.Checking.{Comes, with_unit};
ghost use Rattle.plan_verdict.specs.Verdict.{start as begin};

use plan_leaves::Items;
use plan_typed::Sub;
use plan_verdict::{CheckError, Progress};
use std::alloc::Global;

/// The number of the next relation.
pub fn next_relation(progress: Progress) -> Result<(u32, Progress), CheckError>
    ensures { Comes result (spec.next_relation progress) }
{
    let number = progress.relations;
    let Some(relations) = number.checked_add(1) else {
        return Err(CheckError::NoMemory);
    };
    Ok((
        number,
        Progress {
            relations,
            ..progress
        },
    ))
}

/// The number of the next expression.
pub fn next_node(progress: Progress) -> Result<(u32, Progress), CheckError>
    ensures { Comes result (spec.next_node progress) }
{
    let number = progress.nodes;
    let Some(nodes) = number.checked_add(1) else {
        return Err(CheckError::NoMemory);
    };
    Ok((number, Progress { nodes, ..progress }))
}

/// The next expression has this number.
pub fn nodes_from(progress: Progress, nodes: u32) -> Progress
    ensures { result ≡ record progress { nodes = nodes } }
{
    Progress { nodes, ..progress }
}

/// A subquery is done.
pub(crate) fn done(progress: Progress, sub: Sub) -> Result<Progress, CheckError>
    ensures { Comes (with_unit result) (spec.done sub progress) }
{
    let mut subs = progress.subs;
    subs.push(sub)?;
    Ok(Progress {
        relations: progress.relations,
        nodes: progress.nodes,
        subs,
    })
}

/// Nothing is checked.
pub fn start(alloc: Global) -> Progress
    ensures { result ≡ begin }
{
    Progress {
        relations: 0,
        nodes: 0,
        subs: Items::new(alloc),
    }
}
