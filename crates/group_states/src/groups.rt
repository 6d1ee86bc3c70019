// What is known of the groups of rows.
ghost use Rattle.std.specs.Prelude.{◌≡◌, ◌+◌, [], ◌++◌, ◌<◌, ◌≤◌, ◌^◌, ℕ, List, length, map, All, IfOk, OnOk};
ghost use Rattle.plan_denote.specs.Aggregate.{Entry};
ghost use Rattle.group_tallies.specs.declared.tallies.Keeping.{Keeping as Keep};
ghost use Rattle.group_tallies.specs.Kept.{keeping_in};
ghost use Rattle.group_numbers.specs.Keys.{IsKept, with_keys, keys_at};
ghost use Rattle.group_columns.specs.Columns.{IsWhole};
ghost use Rattle.group_states.specs.States.{IsSound, Knows, AreEntries, keys_before};

use crate::columns::{columns_before, columns_with_groups, columns_with_rows};
use batch::Batch;
use group_columns::Taken;
use group_numbers::GroupKeys;
use group_tallies::{Keeping, Tallies};
use std::alloc::Global;
use sub_types::NoMemory;

/// What is known of the groups of the rows so far, by the groups' numbers: how many rows there are, the keys of the groups, and what
/// is kept of each for each measure. Contracts say by `Knows` that it is what is known of some rows.
#[derive(Drop)]
pub struct Groups {
    pub rows: u64,
    pub keys: GroupKeys,
    pub columns: Vec<Tallies>,
}

fn first_keys(alloc: Global, is_grouped: bool) -> Result<GroupKeys, NoMemory>
    ensures kept { IfOk result (λ keys. IsKept keys) }
    ensures rows { IfOk result (λ keys. keys.rows ≡ keys_before is_grouped) }
{
    if is_grouped {
        Ok(GroupKeys::new(alloc))
    } else {
        GroupKeys::of_no_values(alloc)
    }
}

impl Groups {
    /// What is known of no rows, for measures that keep these. Without grouping expressions there is one group.
    pub fn new(alloc: Global, is_grouped: bool, keepings: &[Keeping]) -> Result<Groups, NoMemory>
        ensures sound { IfOk result (λ groups. IsSound groups) }
        ensures keys { IfOk result (λ groups. groups.keys.rows ≡ keys_before is_grouped) }
        ensures keeping { IfOk result (λ groups. map keeping_in groups.columns.items ≡ keepings.now) }
        ensures knows { IfOk result (λ groups. Knows keepings.now [] groups) }
    {
        let keys = first_keys(alloc, is_grouped)?;
        let columns = columns_before(alloc, is_grouped, keepings)?;
        Ok(Groups {
            rows: 0,
            keys,
            columns,
        })
    }

    /// The same with the rows of a batch, by the values of their keys' columns and by what the measures take of them. Groups that are
    /// new come last.
    pub fn with_batch(
        self,
        alloc: Global,
        batch: &Batch,
        columns: &[u32],
        taken: &[Taken],
    ) -> Result<Groups, NoMemory>
        requires sound { IsSound self }
        requires columns { All (λ column. column < length batch.now.columns.items) columns.now }
        requires all { length taken.now ≡ length self.columns.items }
        requires whole { All (IsWhole batch.now.rows) taken.now }
        requires room { self.rows + batch.now.rows ≤ 2 ^ 62 }
        ensures sound { IfOk result (λ groups. IsSound groups) }
        ensures keys { IfOk result (λ groups. groups.keys.rows ≡ with_keys self.keys.rows (keys_at columns.now batch.now)) }
        ensures keeping { IfOk result (λ groups. map keeping_in groups.columns.items ≡ map keeping_in self.columns.items) }
        ensures knows { (keepings : List Keep) (entries later : List Entry) → Knows keepings entries self → AreEntries columns.now batch.now taken.now later → IfOk result (λ groups. Knows keepings (entries ++ later) groups) }
    {
        let Groups {
            rows,
            mut keys,
            columns: kept,
        } = self;
        let numbers = keys.numbers_of(alloc, batch, columns)?;
        let columns = columns_with_rows(alloc, kept, keys.len(), numbers.as_slice(), taken)?;
        Ok(Groups {
            rows: rows + batch.rows,
            keys,
            columns,
        })
    }

    /// What is known of the rows of both, where the other one is of the rows behind. Groups that are new come last.
    pub fn with_later(self, alloc: Global, later: &Groups) -> Result<Groups, NoMemory>
        requires sound { IsSound self }
        requires later { IsSound later.now }
        requires keeping { map keeping_in self.columns.items ≡ map keeping_in later.now.columns.items }
        requires few { self.rows ≤ 2 ^ 61 }
        requires later_few { later.now.rows ≤ 2 ^ 61 }
        ensures sound { IfOk result (λ groups. IsSound groups) }
        ensures keys { IfOk result (λ groups. groups.keys.rows ≡ with_keys self.keys.rows later.now.keys.rows) }
        ensures keeping { IfOk result (λ groups. map keeping_in groups.columns.items ≡ map keeping_in self.columns.items) }
        ensures knows { (keepings : List Keep) (entries more : List Entry) → Knows keepings entries self → Knows keepings more later.now → IfOk result (λ groups. Knows keepings (entries ++ more) groups) }
    {
        let Groups {
            rows,
            mut keys,
            columns: kept,
        } = self;
        let numbers = keys.numbers_from(alloc, &later.keys)?;
        let columns = columns_with_groups(
            alloc,
            kept,
            keys.len(),
            numbers.as_slice(),
            later.columns.as_slice(),
        )?;
        Ok(Groups {
            rows: rows + later.rows,
            keys,
            columns,
        })
    }
}
