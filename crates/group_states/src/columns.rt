// What is kept of each group for each measure.
ghost use Rattle.std.specs.Prelude.{◌≡◌, ◌+◌, ◌<◌, ◌≤◌, ◌^◌, ℕ, length, map, All, IfOk};
ghost use Rattle.group_laws.specs.Columns.{zipped};
ghost use Rattle.group_tallies.specs.Kept.{tallies_in, keeping_in};
ghost use Rattle.group_columns.specs.Columns.{IsWhole, count_in};
ghost use Rattle.group_states.specs.States as spec;
ghost use Rattle.group_states.specs.States.{kept_in};

use group_columns::{Taken, with_groups, with_rows};
use group_tallies::{Keeping, Tallies};
use std::alloc::Global;
use sub_types::NoMemory;

/// Each measure's tallies of no rows.
pub(crate) fn columns_before(
    alloc: Global,
    is_grouped: bool,
    keepings: &[Keeping],
) -> Result<Vec<Tallies>, NoMemory>
    ensures { IfOk result (λ columns. map kept_in columns.items ≡ map (spec.kept_before is_grouped) keepings.now) }
{
    let mut columns = Vec::new(alloc);
    for keeping in keepings {
        columns.push(tallies_before(alloc, is_grouped, *keeping)?)?;
    }
    Ok(columns)
}

fn tallies_before(alloc: Global, is_grouped: bool, keeping: Keeping) -> Result<Tallies, NoMemory>
    ensures { IfOk result (λ tallies. kept_in tallies ≡ spec.kept_before is_grouped keeping) }
{
    let mut tallies = Tallies::new(alloc, keeping);
    if !is_grouped {
        tallies.push()?;
    }
    Ok(tallies)
}

/// Each measure's tallies with what it takes of rows.
pub(crate) fn columns_with_rows(
    alloc: Global,
    columns: Vec<Tallies>,
    groups: usize,
    numbers: &[usize],
    taken: &[Taken],
) -> Result<Vec<Tallies>, NoMemory>
    requires all { length taken.now ≡ length columns.items }
    requires whole { All (IsWhole (length numbers.now)) taken.now }
    requires numbers { All (λ number. number < groups) numbers.now }
    requires groups { All (λ tallies. length (tallies_in tallies) ≤ groups) columns.items }
    requires room { All (λ tallies. count_in (tallies_in tallies) + length numbers.now ≤ 2 ^ 62) columns.items }
    ensures kept { IfOk result (λ more. map kept_in more.items ≡ zipped (spec.with_rows groups numbers.now (length numbers.now)) (map kept_in columns.items) taken.now) }
    ensures groups { IfOk result (λ more. All (λ tallies. length (tallies_in tallies) ≡ groups) more.items) }
    ensures counts { (rows : ℕ) → All (λ tallies. count_in (tallies_in tallies) ≤ rows) columns.items → IfOk result (λ more. All (λ tallies. count_in (tallies_in tallies) ≤ rows + length numbers.now) more.items) }
{
    let mut more = Vec::new(alloc);
    let mut place = 0;
    for tallies in columns {
        let kept = with_rows(alloc, tallies, groups, numbers, &taken[place])?;
        more.push(kept)?;
        place += 1;
    }
    Ok(more)
}

/// Each measure's tallies with those of later groups.
pub(crate) fn columns_with_groups(
    alloc: Global,
    columns: Vec<Tallies>,
    groups: usize,
    numbers: &[usize],
    later: &[Tallies],
) -> Result<Vec<Tallies>, NoMemory>
    requires keeping { map keeping_in columns.items ≡ map keeping_in later.now }
    requires all { All (λ tallies. length numbers.now ≡ length (tallies_in tallies)) later.now }
    requires numbers { All (λ number. number < groups) numbers.now }
    requires groups { All (λ tallies. length (tallies_in tallies) ≤ groups) columns.items }
    requires few { All (λ tallies. count_in (tallies_in tallies) ≤ 2 ^ 61) columns.items }
    requires later_few { All (λ tallies. count_in (tallies_in tallies) ≤ 2 ^ 61) later.now }
    ensures kept { IfOk result (λ more. map kept_in more.items ≡ zipped (spec.with_groups groups numbers.now) (map kept_in columns.items) (map kept_in later.now)) }
    ensures groups { IfOk result (λ more. All (λ tallies. length (tallies_in tallies) ≡ groups) more.items) }
    ensures counts { (rows others : ℕ) → All (λ tallies. count_in (tallies_in tallies) ≤ rows) columns.items → All (λ tallies. count_in (tallies_in tallies) ≤ others) later.now → IfOk result (λ more. All (λ tallies. count_in (tallies_in tallies) ≤ rows + others) more.items) }
{
    let mut more = Vec::new(alloc);
    let mut place = 0;
    for tallies in columns {
        let kept = with_groups(alloc, tallies, groups, numbers, &later[place])?;
        more.push(kept)?;
        place += 1;
    }
    Ok(more)
}
