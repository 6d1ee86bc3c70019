// What is kept of each group for a measure.
ghost use Rattle.std.specs.Prelude.{◌≡◌, ◌+◌, ◌^◌, ◌<◌, ◌≤◌, [], ◌∷◌, ◌++◌, length, IfOk, OnOk, OnErr};
ghost use Rattle.eval_values.specs.Gives.{Gives};
ghost use Rattle.plan_denote.specs.Tally.{final};
ghost use Rattle.plan_typed.specs.declared.expr.Func.TheVariants as funcs;
ghost use Rattle.group_tallies.specs.declared.tallies.Keeping.TheVariants as keepings;
ghost use Rattle.group_tallies.specs.Kept as spec;
ghost use Rattle.group_tallies.specs.Kept.{tallies_in, keeping_in, in_memory, keeping_in_memory};

use crate::adding::{count_one, greatest_one, least_one, total_one};
use crate::finals::{average_of, sum_of};
use crate::merging::{counts_from, greatest_from, least_from, totals_from};
use crate::running::Running;
use eval_values::EvalError;
use plan_typed::Func;
use std::alloc::Global;
use sub_types::{FaultKind, Kind, NoMemory, Value};

/// What a measure's function needs of the values of a group.
#[derive(Clone, Copy)]
pub enum Keeping {
    /// How many values there are.
    Count,
    /// How many, and their exact total.
    Total,
    /// The least value.
    Least,
    /// The greatest value.
    Greatest,
}

/// What is kept of each group.
#[derive(Drop)]
pub(crate) enum Kept {
    Counts(Vec<u64>),
    Totals(Vec<Running>),
    Least(Vec<Value>),
    Greatest(Vec<Value>),
}

/// What is kept of each group for one measure. Contracts see it as the tallies of the groups by their numbers, by `tallies_in`,
/// of which it holds what `kept` leaves.
#[derive(Drop)]
pub struct Tallies {
    pub(crate) kept: Kept,
}

/// What a measure of this function keeps.
pub fn keeping_of(func: Func) -> Keeping
    ensures { result ≡ spec.keeping_of func }
{
    match func {
        Func::Sum | Func::Avg => Keeping::Total,
        Func::Min => Keeping::Least,
        Func::Max => Keeping::Greatest,
        _ => Keeping::Count,
    }
}

impl Tallies {
    /// No groups.
    pub fn new(alloc: Global, keeping: Keeping) -> Tallies
        ensures tallies { tallies_in result ≡ [] }
        ensures keeping { keeping_in result ≡ keeping }
    {
        let kept = match keeping {
            Keeping::Count => Kept::Counts(Vec::new(alloc)),
            Keeping::Total => Kept::Totals(Vec::new(alloc)),
            Keeping::Least => Kept::Least(Vec::new(alloc)),
            Keeping::Greatest => Kept::Greatest(Vec::new(alloc)),
        };
        Tallies { kept }
    }

    /// How many groups there are.
    pub fn len(&self) -> usize
        ensures { result ≡ length (tallies_in self.now) }
    {
        self.kept.len()
    }

    /// One more group, of which there are no values yet.
    pub fn push(&mut self) -> Result<(), NoMemory>
        ensures tallies { OnOk result (tallies_in self.new ≡ tallies_in self.old ++ spec.none ∷ []) }
        ensures err { OnErr result (tallies_in self.new ≡ tallies_in self.old) }
        ensures keeping { keeping_in self.new ≡ keeping_in self.old }
    {
        self.kept.push()
    }

    /// One more value of a group. Nulls leave what is kept as it is.
    pub fn add(&mut self, group: usize, value: Value)
        requires group { group < length (tallies_in self.old) }
        requires room { (spec.tally_at (tallies_in self.old) group).count < 2 ^ 62 }
        ensures tallies { tallies_in self.new ≡ spec.with_tally (tallies_in self.old) group (spec.kept_of (keeping_in self.old) value) }
        ensures keeping { keeping_in self.new ≡ keeping_in self.old }
    {
        self.kept.add(group, value);
    }

    /// What is kept of a group of a later part goes to a group. Where no memory is found for a value's copy, nothing changes.
    pub fn merge_at(
        &mut self,
        alloc: Global,
        group: usize,
        later: &Tallies,
        from: usize,
    ) -> Result<(), NoMemory>
        requires group { group < length (tallies_in self.old) }
        requires from { from < length (tallies_in later.now) }
        requires keeping { keeping_in self.old ≡ keeping_in later.now }
        requires room { (spec.tally_at (tallies_in self.old) group).count + (spec.tally_at (tallies_in later.now) from).count ≤ 2 ^ 62 }
        ensures ok { OnOk result (tallies_in self.new ≡ spec.with_tally (tallies_in self.old) group (spec.tally_at (tallies_in later.now) from)) }
        ensures err { OnErr result (tallies_in self.new ≡ tallies_in self.old) }
        ensures keeping { keeping_in self.new ≡ keeping_in self.old }
    {
        self.kept.merge(alloc, group, &later.kept, from)
    }

    /// What a measure of this function gives for a group: a value of the kind, or the fault that it is out of its range.
    pub fn final_at(
        &self,
        alloc: Global,
        group: usize,
        func: Func,
        kind: Kind,
    ) -> Result<Value, EvalError>
        requires group { group < length (tallies_in self.now) }
        requires keeping { keeping_in self.now ≡ spec.keeping_of func }
        requires few { (spec.tally_at (tallies_in self.now) group).count ≤ 2 ^ 62 }
        ensures { Gives result (final func kind (spec.tally_at (tallies_in self.now) group)) }
    {
        match func {
            Func::Count => Ok(Value::Int(self.kept.count_at(group) as i64)),
            Func::Sum => Ok(self.kept.sum_at(group, kind)?),
            Func::Avg => Ok(self.kept.average_at(group, kind)?),
            Func::Min => Ok(self.kept.least_at(alloc, group)?),
            Func::Max => Ok(self.kept.greatest_at(alloc, group)?),
            _ => Ok(Value::Null),
        }
    }
}

impl Kept {
    fn len(&self) -> usize
        ensures { result ≡ length (in_memory self.now) }
    {
        match self {
            Kept::Counts(counts) => counts.len(),
            Kept::Totals(totals) => totals.len(),
            Kept::Least(bests) => bests.len(),
            Kept::Greatest(bests) => bests.len(),
        }
    }

    fn push(&mut self) -> Result<(), NoMemory>
        ensures tallies { OnOk result (in_memory self.new ≡ in_memory self.old ++ spec.none ∷ []) }
        ensures err { OnErr result (in_memory self.new ≡ in_memory self.old) }
        ensures keeping { keeping_in_memory self.new ≡ keeping_in_memory self.old }
    {
        match self {
            Kept::Counts(counts) => counts.push(0)?,
            Kept::Totals(totals) => totals.push(Running::NONE)?,
            Kept::Least(bests) => bests.push(Value::Null)?,
            Kept::Greatest(bests) => bests.push(Value::Null)?,
        }
        Ok(())
    }

    fn add(&mut self, group: usize, value: Value)
        requires group { group < length (in_memory self.old) }
        requires room { (spec.tally_at (in_memory self.old) group).count < 2 ^ 62 }
        ensures tallies { in_memory self.new ≡ spec.with_tally (in_memory self.old) group (spec.kept_of (keeping_in_memory self.old) value) }
        ensures keeping { keeping_in_memory self.new ≡ keeping_in_memory self.old }
    {
        match self {
            Kept::Counts(counts) => count_one(counts, group, &value),
            Kept::Totals(totals) => total_one(totals, group, &value),
            Kept::Least(bests) => least_one(bests, group, value),
            Kept::Greatest(bests) => greatest_one(bests, group, value),
        }
    }

    fn merge(
        &mut self,
        alloc: Global,
        group: usize,
        later: &Kept,
        from: usize,
    ) -> Result<(), NoMemory>
        requires group { group < length (in_memory self.old) }
        requires from { from < length (in_memory later.now) }
        requires keeping { keeping_in_memory self.old ≡ keeping_in_memory later.now }
        requires room { (spec.tally_at (in_memory self.old) group).count + (spec.tally_at (in_memory later.now) from).count ≤ 2 ^ 62 }
        ensures ok { OnOk result (in_memory self.new ≡ spec.with_tally (in_memory self.old) group (spec.tally_at (in_memory later.now) from)) }
        ensures err { OnErr result (in_memory self.new ≡ in_memory self.old) }
        ensures keeping { keeping_in_memory self.new ≡ keeping_in_memory self.old }
    {
        match (self, later) {
            (Kept::Counts(counts), Kept::Counts(later)) => {
                counts_from(counts, group, later, from);
                Ok(())
            }
            (Kept::Totals(totals), Kept::Totals(later)) => {
                totals_from(totals, group, later, from);
                Ok(())
            }
            (Kept::Least(bests), Kept::Least(later)) => least_from(
                alloc, bests, group, later, from,
            ),
            (Kept::Greatest(bests), Kept::Greatest(later)) => {
                greatest_from(alloc, bests, group, later, from)
            }
            _ => unreachable!(),
        }
    }

    #[tactic(auto, using(crate::proofs::KeptLaws::tally_of_item))]
    fn count_at(&self, group: usize) -> u64
        requires group { group < length (in_memory self.now) }
        requires keeping { keeping_in_memory self.now ≡ keepings.Count }
        ensures { result ≡ (spec.tally_at (in_memory self.now) group).count }
    {
        match self {
            Kept::Counts(counts) => counts[group],
            _ => unreachable!(),
        }
    }

    #[tactic(auto, using(crate::proofs::KeptLaws::tally_of_item))]
    fn running_at(&self, group: usize) -> Running
        requires group { group < length (in_memory self.now) }
        requires keeping { keeping_in_memory self.now ≡ keepings.Total }
        ensures { spec.totalled result ≡ spec.tally_at (in_memory self.now) group }
    {
        match self {
            Kept::Totals(totals) => totals[group],
            _ => unreachable!(),
        }
    }

    fn sum_at(&self, group: usize, kind: Kind) -> Result<Value, FaultKind>
        requires group { group < length (in_memory self.now) }
        requires keeping { keeping_in_memory self.now ≡ keepings.Total }
        requires few { (spec.tally_at (in_memory self.now) group).count ≤ 2 ^ 62 }
        ensures { result ≡ final funcs.Sum kind (spec.tally_at (in_memory self.now) group) }
    {
        sum_of(kind, self.running_at(group))
    }

    fn average_at(&self, group: usize, kind: Kind) -> Result<Value, FaultKind>
        requires group { group < length (in_memory self.now) }
        requires keeping { keeping_in_memory self.now ≡ keepings.Total }
        requires few { (spec.tally_at (in_memory self.now) group).count ≤ 2 ^ 62 }
        ensures { result ≡ final funcs.Avg kind (spec.tally_at (in_memory self.now) group) }
    {
        average_of(kind, self.running_at(group))
    }

    #[tactic(auto, using(crate::proofs::KeptLaws::tally_of_item))]
    fn least_at(&self, alloc: Global, group: usize) -> Result<Value, NoMemory>
        requires group { group < length (in_memory self.now) }
        requires keeping { keeping_in_memory self.now ≡ keepings.Least }
        ensures { IfOk result (λ value. value ≡ (spec.tally_at (in_memory self.now) group).least) }
    {
        match self {
            Kept::Least(bests) => bests[group].copy(alloc),
            _ => unreachable!(),
        }
    }

    #[tactic(auto, using(crate::proofs::KeptLaws::tally_of_item))]
    fn greatest_at(&self, alloc: Global, group: usize) -> Result<Value, NoMemory>
        requires group { group < length (in_memory self.now) }
        requires keeping { keeping_in_memory self.now ≡ keepings.Greatest }
        ensures { IfOk result (λ value. value ≡ (spec.tally_at (in_memory self.now) group).greatest) }
    {
        match self {
            Kept::Greatest(bests) => bests[group].copy(alloc),
            _ => unreachable!(),
        }
    }
}
