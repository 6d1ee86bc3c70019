// Each plan of `data/` is spelled and read back. The README says what stands there.
#![tactic(auto)]

use anyhow::{Context, Result, ensure};
use hex::decode;
use plan_decode::{DecodeError, decode_plan};
use plan_leaves::Boxed;
use plan_raw::{PlanTree, RawRel};
use spell_tree::spell;
use std::alloc::Global;
use std::fs;
use std::rt::Files;

fn main(rt: HostRuntime) -> Result<()> {
    let read_back = each_plan(&rt)?;
    deepest_plan(&rt)?;
    println!(rt; "{read_back} read back")?;
    Ok(())
}

/// How many plans there are, each of which reads back.
fn each_plan<R: Files + AllocGlobal>(rt: &R) -> Result<u64> {
    let text = fs::read_to_string(rt, "all.plans")?;
    let mut count: u64 = 0;
    for line in text.lines() {
        let (name, plan) = line.split_once(' ').context("no plan")?;
        let holds = reads_back(rt.alloc(), plan).context(format_args!("{name}"))?;
        ensure!(holds, "{name} has other bytes");
        count = count.saturating_add(1);
    }
    Ok(count)
}

/// The tree of a plan in hex.
fn tree_of(alloc: Global, plan: &str) -> Result<PlanTree> {
    Ok(decode_plan(alloc, &decode(alloc, plan)?)?)
}

/// Whether the tree of a plan, spelled and read back, is spelled the same.
fn reads_back(alloc: Global, plan: &str) -> Result<bool> {
    let bytes = spelled(alloc, &tree_of(alloc, plan)?)?;
    let again = spelled(alloc, &decode_plan(alloc, &bytes)?)?;
    Ok(bytes.as_slice() == again.as_slice())
}

fn spelled(alloc: Global, tree: &PlanTree) -> Result<Vec<u8>> {
    spell(alloc, tree).ok().context("no memory")
}

/// A tree of 100 levels reads back, and the bytes of one of 101 are refused: its last message stands in them, empty, and is too
/// deep.
fn deepest_plan<R: Files + AllocGlobal>(rt: &R) -> Result<()> {
    let text = fs::read_to_string(rt, "levels_100.plan")?;
    ensure!(
        reads_back(rt.alloc(), text.trim())?,
        "100 levels have other bytes"
    );
    let text = fs::read_to_string(rt, "levels_99.plan")?;
    let deeper = filtered(rt.alloc(), tree_of(rt.alloc(), text.trim())?)?;
    let bytes = spelled(rt.alloc(), &deeper)?;
    ensure!(is_too_deep(rt.alloc(), &bytes), "101 levels are read");
    Ok(())
}

fn is_too_deep(alloc: Global, bytes: &[u8]) -> bool {
    matches!(decode_plan(alloc, bytes), Err(DecodeError::TooDeep { .. }))
}

/// The plan with its last root's relation under a filter, which is two levels more.
fn filtered(alloc: Global, mut plan: PlanTree) -> Result<PlanTree> {
    let mut root = plan.roots.pop().context("no root")?;
    let filter = RawRel::Filter {
        common: None,
        input: root.input,
        condition: None,
    };
    root.input = Some(Boxed::new(alloc, filter).ok().context("no memory")?);
    plan.roots.push(root).ok().context("no memory")?;
    Ok(plan)
}
