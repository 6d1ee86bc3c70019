// The groups of all sets.
ghost use Rattle.std.specs.Prelude.{◌≡◌, ◌+◌, ◌≤◌, ◌++◌, [], ℕ, List, map, length, IfOk};
ghost use Rattle.plan_denote.specs.Aggregate as aggregate;
ghost use Rattle.plan_denote.specs.Aggregate.{Entry};
ghost use Rattle.set_inputs.specs.Inputs.{AreInputs};
ghost use Rattle.set_states.specs.States.{AreKnown};

use crate::set::SetGroups;
use plan_typed::SetMeasure;
use set_inputs::SetInputs;
use std::alloc::Global;
use sub_types::NoMemory;

/// What is known of the groups of several sets: how many rows there are, and the groups of each set. Contracts say by `AreKnown` of
/// which rows.
#[derive(Drop)]
pub struct Sets {
    pub rows: u64,
    pub sets: Vec<SetGroups>,
}

impl Sets {
    /// Of no rows, for so many sets.
    pub fn new(alloc: Global, sets: usize, measures: &[SetMeasure]) -> Result<Sets, NoMemory>
        ensures { (width : ℕ) (places : List (List ℕ)) → length places ≡ sets → IfOk result (AreKnown width measures.now places []) }
    {
        let mut all = Vec::new(alloc);
        for _ in 0..sets {
            let one = SetGroups::new(alloc, measures)?;
            all.push(one)?;
        }
        Ok(Sets { rows: 0, sets: all })
    }

    /// The same with the rows of a batch, where there are so many grouping expressions.
    pub fn with_inputs(
        self,
        alloc: Global,
        width: usize,
        sets: &[Vec<u32>],
        measures: &[SetMeasure],
        inputs: &SetInputs,
    ) -> Result<Sets, NoMemory>
        requires known { (entries : List Entry) × AreKnown width measures.now (map (λ set. set.items) sets.now) entries self }
        requires inputs { (later : List Entry) × AreInputs width measures.now later inputs.now }
        requires few { self.rows + inputs.now.batch.rows ≤ aggregate.MAX_INPUT }
        ensures { (entries later : List Entry) → AreKnown width measures.now (map (λ set. set.items) sets.now) entries self → AreInputs width measures.now later inputs.now → IfOk result (AreKnown width measures.now (map (λ set. set.items) sets.now) (entries ++ later)) }
    {
        let Sets { rows, sets: olds } = self;
        let mut all = Vec::new(alloc);
        let mut place = 0;
        for one in olds {
            let more = one.with_inputs(alloc, width, sets[place].as_slice(), measures, inputs)?;
            all.push(more)?;
            place += 1;
        }
        Ok(Sets {
            rows: rows + inputs.batch.rows,
            sets: all,
        })
    }

    /// The same with what is known of later rows.
    pub fn with_later(
        self,
        alloc: Global,
        measures: &[SetMeasure],
        later: &Sets,
    ) -> Result<Sets, NoMemory>
        requires known { (width : ℕ) × (sets : List (List ℕ)) × (entries : List Entry) × (more : List Entry) × AreKnown width measures.now sets entries self × AreKnown width measures.now sets more later.now }
        requires few { self.rows + later.now.rows ≤ aggregate.MAX_INPUT }
        ensures { (width : ℕ) (sets : List (List ℕ)) (entries more : List Entry) → AreKnown width measures.now sets entries self → AreKnown width measures.now sets more later.now → IfOk result (AreKnown width measures.now sets (entries ++ more)) }
    {
        let Sets { rows, sets: olds } = self;
        let mut all = Vec::new(alloc);
        let mut place = 0;
        for one in olds {
            let both = one.with_later(alloc, measures, &later.sets[place])?;
            all.push(both)?;
            place += 1;
        }
        Ok(Sets {
            rows: rows + later.rows,
            sets: all,
        })
    }
}
