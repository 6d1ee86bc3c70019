// Steps over two columns of numbers, which give two columns of numbers.
ghost use Rattle.std.specs.Prelude.{◌≡◌, ◌<◌, ◌∷◌, [], IfOk, OnOk, length};
ghost use Rattle.std.specs.List.{All};
ghost use Rattle.pipe_steps.specs.Tables.{joins_of};
ghost use Rattle.pipe_round_tests.specs.Steps.{AreSteps, IsJoinOf, IsReadAll};

use crate::batches::NUMBER;
use crate::random::Random;
use pipe_steps::BuiltTable;
use plan_leaves::Items;
use plan_pipes::Step;
use std::alloc::Global;
use sub_types::NoMemory;

/// A read relation's step, and up to three steps more: the columns change places, or are joined with one of these tables.
pub(crate) fn random_steps(
    alloc: Global,
    random: &mut Random,
    tables: &[BuiltTable],
) -> Result<Vec<Step>, NoMemory>
    requires { All IsJoinOf tables.now }
    ensures { IfOk result (λ steps. AreSteps (joins_of tables.now) steps.items) }
{
    let mut steps = Vec::new(alloc);
    push_read(alloc, tables, &mut steps)?;
    for _ in 0..random.below(4) {
        push_random(alloc, random, tables, &mut steps)?;
    }
    Ok(steps)
}

/// A read relation's step alone.
pub(crate) fn read_alone(alloc: Global, tables: &[BuiltTable]) -> Result<Vec<Step>, NoMemory>
    ensures { IfOk result (λ steps. AreSteps (joins_of tables.now) steps.items) }
{
    let mut steps = Vec::new(alloc);
    push_read(alloc, tables, &mut steps)?;
    Ok(steps)
}

fn push_read(alloc: Global, tables: &[BuiltTable], steps: &mut Vec<Step>) -> Result<(), NoMemory>
    requires { steps.old.items ≡ [] }
    ensures { OnOk result (AreSteps (joins_of tables.now) steps.new.items) }
{
    let read = read_all(alloc)?;
    steps.push(read)?;
    Ok(())
}

fn push_random(
    alloc: Global,
    random: &mut Random,
    tables: &[BuiltTable],
    steps: &mut Vec<Step>,
) -> Result<(), NoMemory>
    requires joins { All IsJoinOf tables.now }
    requires steps { AreSteps (joins_of tables.now) steps.old.items }
    ensures { OnOk result (AreSteps (joins_of tables.now) steps.new.items) }
{
    let built = random.below(4);
    if built < tables.len() as u64 {
        push_join(alloc, built as u32, tables, steps)?;
        Ok(())
    } else {
        push_kept(alloc, 1, 0, tables, steps)?;
        Ok(())
    }
}

// A join, of which the columns of the left rows stay.
fn push_join(
    alloc: Global,
    built: u32,
    tables: &[BuiltTable],
    steps: &mut Vec<Step>,
) -> Result<(), NoMemory>
    requires built { built < length tables.now }
    requires joins { All IsJoinOf tables.now }
    requires steps { AreSteps (joins_of tables.now) steps.old.items }
    ensures { OnOk result (AreSteps (joins_of tables.now) steps.new.items) }
{
    let kept = kept_columns(alloc, 0, 1)?;
    steps.push(Step::Probe { built })?;
    steps.push(kept)?;
    Ok(())
}

// Two of the columns.
fn push_kept(
    alloc: Global,
    first: u32,
    second: u32,
    tables: &[BuiltTable],
    steps: &mut Vec<Step>,
) -> Result<(), NoMemory>
    requires first { first < 2 }
    requires second { second < 2 }
    requires steps { AreSteps (joins_of tables.now) steps.old.items }
    ensures { OnOk result (AreSteps (joins_of tables.now) steps.new.items) }
{
    let kept = kept_columns(alloc, first, second)?;
    steps.push(kept)?;
    Ok(())
}

fn kept_columns(alloc: Global, first: u32, second: u32) -> Result<Step, NoMemory>
    ensures { IfOk result (λ step. step ≡ Step.Keep (first ∷ second ∷ [])) }
{
    let columns = two(alloc, first, second)?;
    Ok(Step::Keep(columns))
}

fn two(alloc: Global, first: u32, second: u32) -> Result<Items<u32>, NoMemory>
    ensures { IfOk result (λ columns. columns ≡ first ∷ second ∷ []) }
{
    let mut columns = Vec::new(alloc);
    columns.push(first)?;
    columns.push(second)?;
    Ok(Items::from_vec(columns))
}

/// Reads two columns of numbers, and takes both.
pub(crate) fn read_all(alloc: Global) -> Result<Step, NoMemory>
    ensures { IfOk result IsReadAll }
{
    let mut types = Vec::new(alloc);
    types.push(NUMBER)?;
    types.push(NUMBER)?;
    let mask = two(alloc, 0, 1)?;
    Ok(Step::Read {
        relation: 3,
        names: Items::new(alloc),
        types: Items::from_vec(types),
        filter: None,
        mask,
    })
}
