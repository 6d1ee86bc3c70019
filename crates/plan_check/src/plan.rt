// The check of a plan (Substrait `Plan`, `PlanRel` and `RelRoot`).
ghost use Rattle.std.specs.Prelude.{true, false, IfOk, Result};
ghost use Rattle.well_typed.specs.WellTyped.{IsWellTyped, IsWellTypedAlone};
ghost use Rattle.plan_check.specs.Names as spec;
ghost use Rattle.plan_verdict.specs.Checking.{Comes, Refusal};
ghost use Rattle.plan_verdict.specs.Verdict.{Answers, plan_in, typed_alone, verdict};

use crate::knot::{LEVELS, relation};
use check_exprs::{Terms, refuse, start};
use plan_leaves::{CopyIn, Items};
use plan_raw::{PlanTree, RawRel, RootDecl};
use plan_rules::Declarations;
use plan_tree::count_relations;
use plan_typed::{Holed, Rel, Typed};
use plan_verdict::{CheckError, Progress, Rule};
use std::alloc::Global;
use sub_types::ByteList;

/// The most relations of a plan.
const MAX_RELATIONS: u32 = 1000;

/// The checked plan, in which subqueries are refused as an unsupported form. A refusal tells the relation and the rule
/// that it breaks, the first in the order of the checks.
pub fn check(alloc: Global, tree: &PlanTree) -> Result<Typed, CheckError>
    ensures verdict { Answers result (typed_alone (verdict false tree.now)) }
    ensures typed { IfOk result (λ typed. IsWellTypedAlone typed) }
{
    typed_alone_of(verdict_on(alloc, tree, false))
}

/// The checked plan with its subqueries, each of which has a place in it for its value. A refusal tells the relation and
/// the rule that it breaks, the first in the order of the checks.
pub fn check_holes(alloc: Global, tree: &PlanTree) -> Result<Holed, CheckError>
    ensures verdict { Answers result (verdict true tree.now) }
    ensures typed { IfOk result (λ found. IsWellTyped found) }
{
    verdict_on(alloc, tree, true)
}

/// The checked plan without its subqueries.
fn typed_alone_of(found: Result<Holed, CheckError>) -> Result<Typed, CheckError>
    ensures { (whole : Result Holed Refusal) → Answers found whole → Answers result (typed_alone whole) }
{
    Ok(found?.typed)
}

fn verdict_on(alloc: Global, tree: &PlanTree, with_subqueries: bool) -> Result<Holed, CheckError>
    ensures { Answers result (verdict with_subqueries tree.now) }
{
    let declared = Declarations::new(alloc, tree.uris.as_slice(), tree.functions.as_slice())?;
    let terms = Terms::new(alloc, declared, with_subqueries);
    let (typed, progress) = plan_of(&terms, start(alloc), tree.roots.as_slice())?;
    Ok(Holed {
        typed,
        subs: progress.subs,
    })
}

/// A plan of one root, whose input isn't too many relations and has as many columns as there are names.
fn plan_of(
    terms: &Terms<'_>,
    progress: Progress,
    roots: &[RootDecl],
) -> Result<(Typed, Progress), CheckError>
    ensures { Comes result (plan_in terms.now roots.now progress) }
{
    let [root] = roots else {
        return refuse(0, Rule::UnsupportedForm);
    };
    if !root.is_root {
        return refuse(0, Rule::UnsupportedForm);
    }
    let Some(input) = &root.input else {
        return refuse(0, Rule::MissingField);
    };
    let input = input.get();
    if count_relations(input, MAX_RELATIONS + 1) > MAX_RELATIONS {
        return refuse(0, Rule::TooMany);
    }
    let (rel, progress) = relation(LEVELS, terms, progress, input)?;
    named(terms.alloc(), progress, &root.names, rel)
}

/// A relation with a name for each column.
fn named(
    alloc: Global,
    progress: Progress,
    names: &Items<ByteList>,
    rel: Rel,
) -> Result<(Typed, Progress), CheckError>
    ensures { Comes result (spec.named names.now rel progress) }
{
    if names.len() != rel.columns.len() {
        return refuse(0, Rule::BadNames);
    }
    let names = names.copy_in(alloc)?;
    Ok((Typed { rel, names }, progress))
}
