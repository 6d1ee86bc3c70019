// The values of each group at their first appearance.
ghost use Rattle.std.specs.Prelude.{◌≡◌, ◌<◌, ◌≤◌, ◌^◌, ◌∷◌, ◌++◌, ◌==◌, [], ℕ, List, map, length, slice_index_or, All, IfOk, OnOk, if◌then◌else◌};
ghost use Rattle.plan_denote.specs.Computed.{Row};
ghost use Rattle.plan_denote.specs.Aggregate.{Entry};
ghost use Rattle.group_tallies.specs.Kept.{tallies_in, keeping_in};
ghost use Rattle.group_numbers.specs.Keys.{IsKept, IsOnce, AreAt, with_keys, keys_at};
ghost use Rattle.group_columns.specs.Columns.{count_in, keys_of, padded};
ghost use Rattle.group_firsts.specs.Firsts as spec;
ghost use Rattle.group_firsts.specs.Firsts.{AreFirsts, AreWithin, pair_at, kept_once, with_new, numbers_at};

use batch::Batch;
use group_numbers::GroupKeys;
use group_tallies::{Keeping, Tallies};
use plan_leaves::Items;
use std::alloc::Global;
use sub_types::{NoMemory, Value};

/// The values that a measure takes of each group, each at its first appearance, null where it takes none. Contracts say by
/// `AreFirsts` of which rows they are.
#[derive(Drop)]
pub struct Firsts {
    /// A value, and behind it its group's key.
    pub(crate) pairs: GroupKeys,
    /// The number of the group of each.
    pub(crate) groups: Vec<usize>,
}

/// The number of the group of a pair that has this place, if the pair is new there.
fn add_one(groups: &mut Vec<usize>, place: usize, number: usize) -> Result<(), NoMemory>
    ensures { OnOk result (groups.new.items ≡ if place == length groups.old.items then groups.old.items ++ number ∷ [] else groups.old.items) }
{
    if place == groups.len() {
        groups.push(number)?;
    }
    Ok(())
}

/// The numbers of the groups of the pairs that are new, of pairs that have these places.
fn add_new(groups: &mut Vec<usize>, places: &[usize], numbers: &[usize]) -> Result<(), NoMemory>
    requires { length numbers.now ≡ length places.now }
    ensures { OnOk result (groups.new.items ≡ with_new groups.old.items places.now numbers.now) }
{
    for row in 0..places.len() {
        add_one(groups, places[row], numbers[row])?;
    }
    Ok(())
}

/// The numbers at these places.
fn numbers_at(alloc: Global, numbers: &[usize], places: &[usize]) -> Result<Vec<usize>, NoMemory>
    requires { All (λ place. place < length numbers.now) places.now }
    ensures { IfOk result (λ found. found.items ≡ spec.numbers_at numbers.now places.now) }
{
    let mut found = Vec::with_capacity(alloc, places.len())?;
    for place in places {
        found.push(numbers[*place])?;
    }
    Ok(found)
}

/// The value of a pair.
fn first_in(alloc: Global, pair: &Items<Value>) -> Result<Value, NoMemory>
    ensures { IfOk result (λ value. value ≡ spec.first_in pair.now) }
{
    let values = pair.as_slice();
    if values.is_empty() {
        return Ok(Value::Null);
    }
    values[0].copy(alloc)
}

/// The tallies of so many groups without values.
fn none_yet(alloc: Global, keeping: Keeping, groups: usize) -> Result<Tallies, NoMemory>
    ensures tallies { IfOk result (λ tallies. tallies_in tallies ≡ padded groups []) }
    ensures keeping { IfOk result (λ tallies. keeping_in tallies ≡ keeping) }
{
    let mut tallies = Tallies::new(alloc, keeping);
    for _ in 0..groups {
        tallies.push()?;
    }
    Ok(tallies)
}

impl Firsts {
    /// Of no rows.
    pub fn new(alloc: Global) -> Firsts
        ensures { (keys : List Row) (place : ℕ) → AreFirsts keys [] place result }
    {
        Firsts {
            pairs: GroupKeys::new(alloc),
            groups: Vec::new(alloc),
        }
    }

    /// The same with the rows of a batch, whose groups have these numbers. The first of the columns has what the measure takes of
    /// each row, and the others have its key.
    pub fn with_rows(
        self,
        alloc: Global,
        numbers: &[usize],
        batch: &Batch,
        columns: &[u32],
    ) -> Result<Firsts, NoMemory>
        requires kept { IsKept self.pairs }
        requires columns { All (λ column. column < length batch.now.columns.items) columns.now }
        requires all { length numbers.now ≡ batch.now.rows }
        ensures { (keys : List Row) (entries later : List Entry) (place : ℕ) → AreFirsts keys entries place self → map (pair_at place) later ≡ keys_at columns.now batch.now → AreAt (with_keys keys (keys_of later)) numbers.now (keys_of later) → IfOk result (AreFirsts (with_keys keys (keys_of later)) (entries ++ later) place) }
    {
        let Firsts {
            mut pairs,
            mut groups,
        } = self;
        let places = pairs.numbers_of(alloc, batch, columns)?;
        add_new(&mut groups, places.as_slice(), numbers)?;
        Ok(Firsts { pairs, groups })
    }

    /// The same with those of later rows, whose groups have these numbers here.
    pub fn with_later(
        self,
        alloc: Global,
        numbers: &[usize],
        later: &Firsts,
    ) -> Result<Firsts, NoMemory>
        requires kept { IsKept self.pairs }
        requires later { AreWithin (length numbers.now) later.now }
        ensures { (keys others : List Row) (entries more : List Entry) (place : ℕ) → AreFirsts keys entries place self → AreFirsts others more place later.now → AreAt (with_keys keys others) numbers.now others → IfOk result (AreFirsts (with_keys keys others) (entries ++ more) place) }
    {
        let Firsts {
            mut pairs,
            mut groups,
        } = self;
        let places = pairs.numbers_from(alloc, &later.pairs)?;
        let owners = numbers_at(alloc, numbers, later.groups.as_slice())?;
        add_new(&mut groups, places.as_slice(), owners.as_slice())?;
        Ok(Firsts { pairs, groups })
    }

    /// What a measure that keeps this keeps of the distinct values of each of so many groups.
    pub fn tallies(
        &self,
        alloc: Global,
        keeping: Keeping,
        groups: usize,
    ) -> Result<Tallies, NoMemory>
        requires within { AreWithin groups self.now }
        requires few { length self.now.groups.items ≤ 2 ^ 61 }
        ensures keeping { IfOk result (λ tallies. keeping_in tallies ≡ keeping) }
        ensures groups { IfOk result (λ tallies. length (tallies_in tallies) ≡ groups) }
        ensures counts { IfOk result (λ tallies. count_in (tallies_in tallies) ≤ length self.now.groups.items) }
        ensures tallies { (keys : List Row) (entries : List Entry) (place : ℕ) → AreFirsts keys entries place self.now → IsOnce keys → length keys ≡ groups → IfOk result (λ tallies. tallies_in tallies ≡ map (kept_once keeping entries place) keys) }
    {
        let mut tallies = none_yet(alloc, keeping, groups)?;
        for from in 0..self.groups.len() {
            let value = first_in(alloc, &self.pairs.rows()[from])?;
            tallies.add(self.groups[from], value);
        }
        Ok(tallies)
    }
}
