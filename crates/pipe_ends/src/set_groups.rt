// The groups of an aggregate over several sets of them: a set is the places of some.
ghost use Rattle.std.specs.Prelude.{◌≡◌, ◌<◌, ◌||◌, ◌==◌, ℕ, IfOk, length, map, not, replicate, slice_index};
ghost use Rattle.std.specs.List.{enumerate_from, list_all};
ghost use Rattle.plan_typed.specs.Types.{ty_of};
ghost use Rattle.well_typed.specs.Columns as spec;
ghost use Rattle.pipe_ends.specs.Counts.{counted};

use plan_leaves::Items;
use plan_typed::Expr;
use std::alloc::Global;
use sub_types::{NoMemory, Ty};

/// Each set of places, copied.
pub(crate) fn sets_in(alloc: Global, sets: &[Vec<u32>]) -> Result<Vec<Items<u32>>, NoMemory>
    ensures { IfOk result (λ copies. copies.items ≡ map (λ set. set.items) sets.now) }
{
    let mut copies = Vec::with_capacity(alloc, sets.len())?;
    for set in sets {
        copies.push(places_in(alloc, set)?)?;
    }
    Ok(copies)
}

fn places_in(alloc: Global, set: &[u32]) -> Result<Items<u32>, NoMemory>
    ensures { IfOk result (λ copy. copy ≡ set.now) }
{
    let mut copy = Vec::with_capacity(alloc, set.len())?;
    copy.extend_from_slice(set)?;
    Ok(Items::from_vec(copy))
}

/// The types of the groups' columns, which may be null where some set is without the group.
pub(crate) fn group_types(
    alloc: Global,
    groups: &[Expr],
    sets: &[Items<u32>],
) -> Result<Vec<Ty>, NoMemory>
    ensures { IfOk result (λ given. given.items ≡ map (spec.group_type sets.now) (enumerate_from 0 groups.now)) }
{
    let held = sets_with(alloc, groups.len(), sets)?;
    let mut given = Vec::new(alloc);
    for (place, expr) in groups.iter().enumerate() {
        given.push(group_type(expr, held[place] == sets.len()))?;
    }
    Ok(given)
}

fn group_type(expr: &Expr, is_in_all: bool) -> Ty
    ensures { result ≡ record { kind = (ty_of expr.now).kind; nullable = (ty_of expr.now).nullable || not is_in_all } }
{
    let ty = expr.ty();
    Ty {
        kind: ty.kind,
        nullable: ty.nullable || !is_in_all,
    }
}

// For each of `count` groups how many of the sets hold it, up to the first that doesn't.
fn sets_with(alloc: Global, count: usize, sets: &[Items<u32>]) -> Result<Vec<usize>, NoMemory>
    ensures len { IfOk result (λ held. length held.items ≡ count) }
    ensures all { IfOk result (λ held. (k : ℕ) → k < count → (slice_index held.items k == length sets.now) ≡ list_all (spec.has_place k) sets.now) }
{
    let mut held = none_yet(alloc, count)?;
    for (number, set) in sets.iter().enumerate() {
        count_set(&mut held, number, set.as_slice());
    }
    Ok(held)
}

fn none_yet(alloc: Global, count: usize) -> Result<Vec<usize>, NoMemory>
    ensures { IfOk result (λ held. held.items ≡ replicate count 0) }
{
    Ok(vec![in alloc; 0; count]?)
}

// Counts the set with this number for the groups that all sets before it hold.
fn count_set(held: &mut Vec<usize>, number: usize, set: &[u32])
    requires { number < 18446744073709551615 }
    ensures len { length held.new.items ≡ length held.old.items }
    ensures counts { (k : ℕ) → k < length held.old.items → slice_index held.new.items k ≡ counted number (slice_index held.old.items k) (spec.has_place k set.now) }
{
    for one in set {
        count_place(held, number, *one as usize);
    }
}

// The same of one place. One that no group has is passed over.
fn count_place(held: &mut Vec<usize>, number: usize, place: usize)
    requires { number < 18446744073709551615 }
    ensures len { length held.new.items ≡ length held.old.items }
    ensures counts { (k : ℕ) → k < length held.old.items → slice_index held.new.items k ≡ counted number (slice_index held.old.items k) (place == k) }
{
    if place < held.len() && held[place] == number {
        held[place] = number + 1;
    }
}
