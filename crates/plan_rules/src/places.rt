// The sets of an aggregate's groups, by their places (Substrait `AggregateRel.Grouping`, its `expression_references`).
ghost use Rattle.std.specs.Prelude.{◌≡◌, ◌<◌, ◌||◌, ◌==◌, ℕ, length, false, IfOk, slice_index_or};
ghost use Rattle.std.specs.List.{list_all, list_any, range_with_len};
ghost use Rattle.plan_verdict.specs.Checking.{Agrees};
ghost use Rattle.plan_verdict.specs.Aggregates as spec;

use plan_leaves::Items;
use plan_verdict::{CheckError, Rule};
use std::alloc::Global;
use sub_types::{Bits, NoMemory};

/// The sets of places of `count` expressions: each place is one of them and stands once in its set, and each expression is in
/// some set.
pub fn sets_of_places(
    alloc: Global,
    relation: u32,
    count: usize,
    sets: Items<Items<u32>>,
) -> Result<Items<Items<u32>>, CheckError>
    ensures { Agrees result relation (spec.sets_of_places count sets) }
{
    if !are_all_places(alloc, count, sets.as_slice())? {
        return Err(CheckError::Refused {
            relation,
            rule: Rule::BadReference,
        });
    }
    if !is_each_referred_to(alloc, count, sets.as_slice())? {
        return Err(CheckError::Refused {
            relation,
            rule: Rule::UnsupportedForm,
        });
    }
    Ok(sets)
}

// Whether each set has places of `count` expressions, each at most once.
fn are_all_places(alloc: Global, count: usize, sets: &[Items<u32>]) -> Result<bool, NoMemory>
    ensures { IfOk result (λ are. are ≡ list_all (spec.are_places count) sets.now) }
{
    for set in sets {
        if !are_places(alloc, count, set.as_slice())? {
            return Ok(false);
        }
    }
    Ok(true)
}

fn are_places(alloc: Global, count: usize, set: &[u32]) -> Result<bool, NoMemory>
    ensures { IfOk result (λ are. are ≡ spec.are_places count set.now) }
{
    let mut seen = Bits::zeros(alloc, count)?;
    for one in set {
        let place = *one as usize;
        if place >= count || seen.get(place) {
            return Ok(false);
        }
        seen.put(place, true);
    }
    Ok(true)
}

// Whether each of `count` expressions is in some set.
fn is_each_referred_to(alloc: Global, count: usize, sets: &[Items<u32>]) -> Result<bool, NoMemory>
    ensures { IfOk result (λ are. are ≡ list_all (spec.is_referred_to sets.now) (range_with_len 0 count)) }
{
    let mut referred = Bits::zeros(alloc, count)?;
    for set in sets {
        mark(&mut referred, set.as_slice());
    }
    Ok(are_all_set(&referred))
}

// Marks the places of a set; one that is no place of the marks is passed over.
fn mark(marks: &mut Bits, set: &[u32])
    ensures len { length marks.new ≡ length marks.old }
    ensures marks { (k : ℕ) → k < length marks.old → slice_index_or marks.new k false ≡ (slice_index_or marks.old k false || list_any (λ one. one == k) set.now) }
{
    for one in set {
        let place = *one as usize;
        if place < marks.len() {
            marks.put(place, true);
        }
    }
}

fn are_all_set(marks: &Bits) -> bool
    ensures { result ≡ list_all (λ k. slice_index_or marks.now k false) (range_with_len 0 (length marks.now)) }
{
    for place in 0..marks.len() {
        if !marks.get(place) {
            return false;
        }
    }
    true
}
