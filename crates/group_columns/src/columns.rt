// What is kept of each group for a measure, and rows or groups more.
ghost use Rattle.std.specs.Prelude.{◌≡◌, ◌+◌, ◌<◌, ◌≤◌, ◌^◌, length, All, IfOk, OnOk};
ghost use Rattle.group_tallies.specs.Kept.{tallies_in, keeping_in};
ghost use Rattle.group_columns.specs.Columns as spec;
ghost use Rattle.group_columns.specs.Columns.{IsWhole, count_in};

use crate::rows::add_rows;
use crate::taken::Taken;
use group_tallies::Tallies;
use std::alloc::Global;
use sub_types::NoMemory;

/// The tallies of so many groups, with what a measure takes of rows, each of which has a group by its number. The groups that are new
/// come last.
pub fn with_rows(
    alloc: Global,
    tallies: Tallies,
    groups: usize,
    numbers: &[usize],
    taken: &Taken,
) -> Result<Tallies, NoMemory>
    requires groups { length (tallies_in tallies) ≤ groups }
    requires numbers { All (λ number. number < groups) numbers.now }
    requires whole { IsWhole (length numbers.now) taken.now }
    requires room { count_in (tallies_in tallies) + length numbers.now ≤ 2 ^ 62 }
    ensures tallies { IfOk result (λ more. tallies_in more ≡ spec.with_members (keeping_in tallies) (spec.padded groups (tallies_in tallies)) numbers.now (spec.members_of (length numbers.now) taken.now)) }
    ensures keeping { IfOk result (λ more. keeping_in more ≡ keeping_in tallies) }
    ensures groups { IfOk result (λ more. length (tallies_in more) ≡ groups) }
    ensures counts { IfOk result (λ more. count_in (tallies_in more) ≤ count_in (tallies_in tallies) + length numbers.now) }
{
    let mut tallies = tallies;
    pad(&mut tallies, groups)?;
    add_rows(alloc, &mut tallies, numbers, taken)?;
    Ok(tallies)
}

/// The tallies of so many groups, with those of later groups, each of which has a group by its number. The groups that are new come
/// last.
pub fn with_groups(
    alloc: Global,
    tallies: Tallies,
    groups: usize,
    numbers: &[usize],
    later: &Tallies,
) -> Result<Tallies, NoMemory>
    requires groups { length (tallies_in tallies) ≤ groups }
    requires numbers { All (λ number. number < groups) numbers.now }
    requires all { length numbers.now ≡ length (tallies_in later.now) }
    requires keeping { keeping_in tallies ≡ keeping_in later.now }
    requires room { count_in (tallies_in tallies) + count_in (tallies_in later.now) ≤ 2 ^ 62 }
    ensures tallies { IfOk result (λ more. tallies_in more ≡ spec.with_tallies (spec.padded groups (tallies_in tallies)) numbers.now (tallies_in later.now)) }
    ensures keeping { IfOk result (λ more. keeping_in more ≡ keeping_in tallies) }
    ensures groups { IfOk result (λ more. length (tallies_in more) ≡ groups) }
    ensures counts { IfOk result (λ more. count_in (tallies_in more) ≡ count_in (tallies_in tallies) + count_in (tallies_in later.now)) }
{
    let mut tallies = tallies;
    pad(&mut tallies, groups)?;
    add_groups(alloc, &mut tallies, numbers, later)?;
    Ok(tallies)
}

/// Makes as many groups.
fn pad(tallies: &mut Tallies, groups: usize) -> Result<(), NoMemory>
    requires { length (tallies_in tallies.old) ≤ groups }
    ensures tallies { OnOk result (tallies_in tallies.new ≡ spec.padded groups (tallies_in tallies.old)) }
    ensures keeping { OnOk result (keeping_in tallies.new ≡ keeping_in tallies.old) }
    ensures groups { OnOk result (length (tallies_in tallies.new) ≡ groups) }
    ensures counts { OnOk result (count_in (tallies_in tallies.new) ≡ count_in (tallies_in tallies.old)) }
{
    for _ in tallies.len()..groups {
        tallies.push()?;
    }
    Ok(())
}

/// Adds the tallies of later groups.
fn add_groups(
    alloc: Global,
    tallies: &mut Tallies,
    numbers: &[usize],
    later: &Tallies,
) -> Result<(), NoMemory>
    requires numbers { All (λ number. number < length (tallies_in tallies.old)) numbers.now }
    requires all { length numbers.now ≡ length (tallies_in later.now) }
    requires keeping { keeping_in tallies.old ≡ keeping_in later.now }
    requires room { count_in (tallies_in tallies.old) + count_in (tallies_in later.now) ≤ 2 ^ 62 }
    ensures tallies { OnOk result (tallies_in tallies.new ≡ spec.with_tallies (tallies_in tallies.old) numbers.now (tallies_in later.now)) }
    ensures keeping { OnOk result (keeping_in tallies.new ≡ keeping_in tallies.old) }
    ensures groups { OnOk result (length (tallies_in tallies.new) ≡ length (tallies_in tallies.old)) }
    ensures counts { OnOk result (count_in (tallies_in tallies.new) ≡ count_in (tallies_in tallies.old) + count_in (tallies_in later.now)) }
{
    for from in 0..numbers.len() {
        tallies.merge_at(alloc, numbers[from], later, from)?;
    }
    Ok(())
}
