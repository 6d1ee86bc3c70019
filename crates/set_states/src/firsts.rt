// The values of the measures over distinct ones, one measure after the other.
ghost use Rattle.std.specs.Prelude.{◌≡◌, ◌+◌, ◌<◌, ◌≤◌, ◌∷◌, ◌++◌, ℕ, List, true, map, length, All, IfOk};
ghost use Rattle.plan_denote.specs.Computed.{Row};
ghost use Rattle.plan_denote.specs.Aggregate.{Entry};
ghost use Rattle.group_numbers.specs.Keys.{IsKept, AreAt, with_keys, keys_at};
ghost use Rattle.group_columns.specs.Columns.{keys_of};
ghost use Rattle.group_firsts.specs.Firsts.{AreFirsts, AreWithin, pair_at};
ghost use Rattle.set_states.specs.States.{AreKept, ArePairs};

use batch::Batch;
use group_firsts::Firsts;
use plan_typed::SetMeasure;
use set_inputs::with_first;
use std::alloc::Global;
use sub_types::NoMemory;

/// The same with the rows of a batch, whose groups have these numbers. The measures' columns begin with this one, and the keys are in
/// the others.
pub(crate) fn firsts_with_rows(
    alloc: Global,
    measures: &[SetMeasure],
    firsts: Vec<Firsts>,
    numbers: &[usize],
    batch: &Batch,
    first: usize,
    columns: &[u32],
) -> Result<Vec<Firsts>, NoMemory>
    requires kept { (keys : List Row) × (entries : List Entry) × AreKept measures.now keys entries firsts.items }
    requires columns { All (λ column. column < length batch.now.columns.items) columns.now }
    requires there { first + length measures.now ≤ length batch.now.columns.items }
    requires all { length numbers.now ≡ batch.now.rows }
    ensures { (keys : List Row) (entries later : List Entry) → AreKept measures.now keys entries firsts.items → ArePairs measures.now first columns.now batch.now later → AreAt (with_keys keys (keys_of later)) numbers.now (keys_of later) → IfOk result (λ more. AreKept measures.now (with_keys keys (keys_of later)) (entries ++ later) more.items) }
{
    let mut more = Vec::new(alloc);
    let mut place = 0;
    for one in firsts {
        let with = one_with_rows(
            alloc,
            measures[place].distinct,
            one,
            numbers,
            batch,
            first + place,
            columns,
        )?;
        more.push(with)?;
        place += 1;
    }
    Ok(more)
}

fn one_with_rows(
    alloc: Global,
    is_distinct: bool,
    one: Firsts,
    numbers: &[usize],
    batch: &Batch,
    first: usize,
    columns: &[u32],
) -> Result<Firsts, NoMemory>
    requires kept { is_distinct ≡ true → IsKept one.pairs }
    requires columns { All (λ column. column < length batch.now.columns.items) columns.now }
    requires there { first < length batch.now.columns.items }
    requires all { length numbers.now ≡ batch.now.rows }
    ensures { (keys : List Row) (entries later : List Entry) (place : ℕ) → is_distinct ≡ true → AreFirsts keys entries place one → map (pair_at place) later ≡ keys_at (first ∷ columns.now) batch.now → AreAt (with_keys keys (keys_of later)) numbers.now (keys_of later) → IfOk result (AreFirsts (with_keys keys (keys_of later)) (entries ++ later) place) }
{
    if !is_distinct {
        return Ok(one);
    }
    let all = with_first(alloc, first, columns)?;
    one.with_rows(alloc, numbers, batch, all.as_slice())
}

/// The same with those of later rows, whose groups have these numbers here.
pub(crate) fn firsts_with_later(
    alloc: Global,
    measures: &[SetMeasure],
    firsts: Vec<Firsts>,
    numbers: &[usize],
    later: &[Firsts],
) -> Result<Vec<Firsts>, NoMemory>
    requires kept { (keys : List Row) × (entries : List Entry) × AreKept measures.now keys entries firsts.items }
    requires later { (others : List Row) × (more : List Entry) × AreKept measures.now others more later.now × (length numbers.now ≡ length others) }
    ensures { (keys others : List Row) (entries more : List Entry) → AreKept measures.now keys entries firsts.items → AreKept measures.now others more later.now → AreAt (with_keys keys others) numbers.now others → IfOk result (λ both. AreKept measures.now (with_keys keys others) (entries ++ more) both.items) }
{
    let mut both = Vec::new(alloc);
    let mut place = 0;
    for one in firsts {
        let with = one_with_later(alloc, measures[place].distinct, one, numbers, &later[place])?;
        both.push(with)?;
        place += 1;
    }
    Ok(both)
}

fn one_with_later(
    alloc: Global,
    is_distinct: bool,
    one: Firsts,
    numbers: &[usize],
    later: &Firsts,
) -> Result<Firsts, NoMemory>
    requires kept { is_distinct ≡ true → IsKept one.pairs }
    requires later { is_distinct ≡ true → AreWithin (length numbers.now) later.now }
    ensures { (keys others : List Row) (entries more : List Entry) (place : ℕ) → is_distinct ≡ true → AreFirsts keys entries place one → AreFirsts others more place later.now → AreAt (with_keys keys others) numbers.now others → IfOk result (AreFirsts (with_keys keys others) (entries ++ more) place) }
{
    if !is_distinct {
        return Ok(one);
    }
    one.with_later(alloc, numbers, later)
}
