// The groups of one set.
ghost use Rattle.std.specs.Prelude.{◌≡◌, ◌+◌, ◌<◌, ◌≤◌, ◌++◌, [], ℕ, List, length, All, IfOk};
ghost use Rattle.plan_denote.specs.Aggregate as aggregate;
ghost use Rattle.plan_denote.specs.Aggregate.{Entry};
ghost use Rattle.group_numbers.specs.Keys.{IsKept, AreAt, with_keys, keys_at};
ghost use Rattle.set_inputs.specs.Inputs.{AreInputs};
ghost use Rattle.set_states.specs.States.{IsKnown};

use crate::firsts::{firsts_with_later, firsts_with_rows};
use crate::start::{is_plain, keepings_of, no_firsts};
use batch::Batch;
use group_firsts::Firsts;
use group_numbers::GroupKeys;
use group_states::Groups;
use plan_typed::SetMeasure;
use set_inputs::{SetInputs, columns_over};
use std::alloc::Global;
use sub_types::NoMemory;

/// What is known of the groups of a set, and the values of the measures over distinct ones. Contracts say by `IsKnown` of which rows.
#[derive(Drop)]
pub struct SetGroups {
    /// The groups, and what each measure keeps of all values.
    pub groups: Groups,
    /// For each measure its distinct values, if it is over those.
    pub firsts: Vec<Firsts>,
}

/// Groups, and the numbers of those of rows or of later groups.
#[derive(Drop)]
struct WithNumbers {
    groups: Groups,
    numbers: Vec<usize>,
}

/// The numbers of the groups of a batch's rows.
fn numbered(
    alloc: Global,
    groups: Groups,
    batch: &Batch,
    columns: &[u32],
) -> Result<WithNumbers, NoMemory>
    requires kept { IsKept groups.keys }
    requires columns { All (λ column. column < length batch.now.columns.items) columns.now }
    ensures rest { IfOk result (λ more. (more.groups.rows ≡ groups.rows) × (more.groups.columns ≡ groups.columns)) }
    ensures kept { IfOk result (λ more. IsKept more.groups.keys) }
    ensures keys { IfOk result (λ more. more.groups.keys.rows ≡ with_keys groups.keys.rows (keys_at columns.now batch.now)) }
    ensures numbers { IfOk result (λ more. AreAt more.groups.keys.rows more.numbers.items (keys_at columns.now batch.now)) }
{
    let Groups {
        rows,
        mut keys,
        columns: kept,
    } = groups;
    let numbers = keys.numbers_of(alloc, batch, columns)?;
    let groups = Groups {
        rows,
        keys,
        columns: kept,
    };
    Ok(WithNumbers { groups, numbers })
}

/// The numbers here of the groups of later keys.
fn numbered_later(alloc: Global, groups: Groups, later: &GroupKeys) -> Result<WithNumbers, NoMemory>
    requires kept { IsKept groups.keys }
    requires later { IsKept later.now }
    ensures rest { IfOk result (λ more. (more.groups.rows ≡ groups.rows) × (more.groups.columns ≡ groups.columns)) }
    ensures kept { IfOk result (λ more. IsKept more.groups.keys) }
    ensures keys { IfOk result (λ more. more.groups.keys.rows ≡ with_keys groups.keys.rows later.now.rows) }
    ensures numbers { IfOk result (λ more. AreAt more.groups.keys.rows more.numbers.items later.now.rows) }
{
    let Groups {
        rows,
        mut keys,
        columns: kept,
    } = groups;
    let numbers = keys.numbers_from(alloc, later)?;
    let groups = Groups {
        rows,
        keys,
        columns: kept,
    };
    Ok(WithNumbers { groups, numbers })
}

impl SetGroups {
    /// Of no rows.
    pub(crate) fn new(alloc: Global, measures: &[SetMeasure]) -> Result<SetGroups, NoMemory>
        ensures { (set : List ℕ) → IfOk result (IsKnown measures.now set []) }
    {
        let keepings = keepings_of(alloc, measures)?;
        let groups = Groups::new(alloc, true, keepings.as_slice())?;
        let firsts = no_firsts(alloc, measures.len())?;
        Ok(SetGroups { groups, firsts })
    }

    /// The same with the rows of a batch, where there are so many grouping expressions.
    pub(crate) fn with_inputs(
        self,
        alloc: Global,
        width: usize,
        set: &[u32],
        measures: &[SetMeasure],
        inputs: &SetInputs,
    ) -> Result<SetGroups, NoMemory>
        requires known { (entries : List Entry) × IsKnown measures.now set.now entries self × (length entries + inputs.now.batch.rows ≤ aggregate.MAX_INPUT) }
        requires inputs { (later : List Entry) × AreInputs width measures.now later inputs.now }
        ensures { (entries later : List Entry) → IsKnown measures.now set.now entries self → AreInputs width measures.now later inputs.now → IfOk result (IsKnown measures.now set.now (entries ++ later)) }
    {
        let SetGroups { groups, firsts } = self;
        let columns = columns_over(alloc, inputs.nulls, width, set)?;
        let places = columns.as_slice();
        let taken = inputs.taken.as_slice();
        let grown = groups.with_batch(alloc, &inputs.batch, places, taken)?;
        let plain = is_plain(measures);
        if plain {
            return Ok(SetGroups {
                groups: grown,
                firsts,
            });
        }
        let more = numbered(alloc, grown, &inputs.batch, places)?;
        let first = inputs.nulls + 1;
        let firsts = firsts_with_rows(
            alloc,
            measures,
            firsts,
            more.numbers.as_slice(),
            &inputs.batch,
            first,
            places,
        )?;
        Ok(SetGroups {
            groups: more.groups,
            firsts,
        })
    }

    /// The same with what is known of later rows.
    pub(crate) fn with_later(
        self,
        alloc: Global,
        measures: &[SetMeasure],
        later: &SetGroups,
    ) -> Result<SetGroups, NoMemory>
        requires known { (set : List ℕ) × (entries : List Entry) × (more : List Entry) × IsKnown measures.now set entries self × IsKnown measures.now set more later.now × (length entries ≤ aggregate.MAX_INPUT) × (length more ≤ aggregate.MAX_INPUT) }
        ensures { (set : List ℕ) (entries more : List Entry) → IsKnown measures.now set entries self → IsKnown measures.now set more later.now → IfOk result (IsKnown measures.now set (entries ++ more)) }
    {
        let SetGroups { groups, firsts } = self;
        let grown = groups.with_later(alloc, &later.groups)?;
        let plain = is_plain(measures);
        if plain {
            return Ok(SetGroups {
                groups: grown,
                firsts,
            });
        }
        let both = numbered_later(alloc, grown, &later.groups.keys)?;
        let firsts = firsts_with_later(
            alloc,
            measures,
            firsts,
            both.numbers.as_slice(),
            later.firsts.as_slice(),
        )?;
        Ok(SetGroups {
            groups: both.groups,
            firsts,
        })
    }
}
