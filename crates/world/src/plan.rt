// The failures that a test plans for a folder in memory, and those of one of its readers.
ghost use Rattle.std.specs.Prelude.{◌≡◌, IfOk};
ghost use Rattle.world.specs.Planned as spec;

use std::alloc::{AllocError, Global};
use sub_types::Word;

/// What is to fail in a folder in memory: names and, where it is one call of several, its index from 0 or its place.
#[derive(Drop)]
pub(crate) struct FailurePlan {
    pub(crate) opens: Vec<Word>,
    pub(crate) lens: Vec<Word>,
    pub(crate) reads: Vec<(Word, u32)>,
    pub(crate) places: Vec<(Word, u64)>,
    pub(crate) agains: Vec<(Word, u32)>,
    /// An append's index over the folder, and how many bytes of its piece are kept.
    pub(crate) appends: Vec<(u32, u32)>,
    /// The next creation fails.
    pub(crate) create: bool,
}

impl FailurePlan {
    ghost use Rattle.world.specs.Told.{no_failures};
    ghost use Rattle.world.specs.PlanView.{plan_of, readers_plan_of};

    pub(crate) fn new(alloc: Global) -> FailurePlan
        ensures { plan_of result ≡ no_failures }
    {
        FailurePlan {
            opens: Vec::new(alloc),
            lens: Vec::new(alloc),
            reads: Vec::new(alloc),
            places: Vec::new(alloc),
            agains: Vec::new(alloc),
            appends: Vec::new(alloc),
            create: false,
        }
    }

    /// Whether a reader of that name is to fail.
    pub(crate) fn fails_to_open(&self, name: &str) -> bool
        ensures { result ≡ spec.is_named name.now (plan_of self.now).opens }
    {
        is_named(&self.opens, name)
    }

    /// How many bytes of its piece the append with this index keeps, where it is to fail.
    pub(crate) fn failed_append(&self, index: u32) -> Option<u32>
        ensures { result ≡ spec.failed_append (plan_of self.now) index }
    {
        self.appends
            .iter()
            .find(|append| append.0 == index)
            .map(|append| append.1)
    }

    /// What is to fail in each reader of that name.
    pub(crate) fn of_reader(&self, alloc: Global, name: &str) -> Result<ReaderPlan, AllocError>
        ensures { IfOk result (λ plan. readers_plan_of plan ≡ spec.for_reader (plan_of self.now) name.now) }
    {
        Ok(ReaderPlan {
            len: is_named(&self.lens, name),
            reads: indices_of(alloc, &self.reads, name)?,
            places: places_of(alloc, &self.places, name)?,
            agains: indices_of(alloc, &self.agains, name)?,
        })
    }
}

// Whether the name is among the words.
fn is_named(words: &[Word], name: &str) -> bool
    ensures { result ≡ spec.is_named name.now words.now }
{
    words.iter().any(|word| word.text() == name)
}

// The indices of the calls under a name.
fn indices_of(alloc: Global, calls: &[(Word, u32)], name: &str) -> Result<Vec<u32>, AllocError>
    ensures { IfOk result (λ indices. indices.items ≡ spec.under name.now calls.now) }
{
    calls
        .iter()
        .filter(|call| call.0.text() == name)
        .map(|call| call.1)
        .collect(alloc)
}

// The places of the calls under a name.
fn places_of(alloc: Global, calls: &[(Word, u64)], name: &str) -> Result<Vec<u64>, AllocError>
    ensures { IfOk result (λ places. places.items ≡ spec.under name.now calls.now) }
{
    calls
        .iter()
        .filter(|call| call.0.text() == name)
        .map(|call| call.1)
        .collect(alloc)
}

/// What is to fail in a reader in memory.
#[derive(Drop)]
pub(crate) struct ReaderPlan {
    pub(crate) len: bool,
    pub(crate) reads: Vec<u32>,
    pub(crate) places: Vec<u64>,
    pub(crate) agains: Vec<u32>,
}

impl ReaderPlan {
    ghost use Rattle.world.specs.PlanView.{readers_plan_of};

    /// Whether the read with this index, at this place, is to fail.
    pub(crate) fn fails_to_read(&self, index: u32, place: u64) -> bool
        ensures { result ≡ spec.fails_read (readers_plan_of self.now) index place }
    {
        self.reads.contains(&index) || self.places.contains(&place)
    }

    /// Whether the second reader with this index is to fail.
    pub(crate) fn fails_again(&self, index: u32) -> bool
        ensures { result ≡ spec.is_among index (readers_plan_of self.now).agains }
    {
        self.agains.contains(&index)
    }

    pub(crate) fn copy(&self) -> Result<ReaderPlan, AllocError>
        ensures { IfOk result (λ plan. readers_plan_of plan ≡ readers_plan_of self.now) }
    {
        Ok(ReaderPlan {
            len: self.len,
            reads: self.reads.clone()?,
            places: self.places.clone()?,
            agains: self.agains.clone()?,
        })
    }
}
