// The places of groups in sets.
ghost use Rattle.std.specs.Prelude.{◌≡◌, ◌∷◌, [], IfOk, length, map};
ghost use Rattle.std.specs.List.{range_with_len};
ghost use Rattle.plan_raw.specs.declared.aggregate.Grouping.{out-Grouping};

use plan_leaves::{CopyIn, Items};
use plan_raw::Grouping;
use plan_typed::Expr;
use plan_verdict::Groups;
use std::alloc::Global;
use sub_types::NoMemory;

/// One set without groups.
pub(crate) fn no_groups(alloc: Global) -> Result<Groups, NoMemory>
    ensures { IfOk result (λ found. found ≡ record { groups = []; sets = [] ∷ [] }) }
{
    let mut sets = Items::new(alloc);
    sets.push(Items::new(alloc))?;
    Ok(Groups {
        groups: Items::new(alloc),
        sets,
    })
}

/// One set of all groups.
pub(crate) fn one_set(alloc: Global, groups: Items<Expr>) -> Result<Groups, NoMemory>
    ensures { IfOk result (λ found. found ≡ record { groups = groups; sets = range_with_len 0 (length groups) ∷ [] }) }
{
    let places = places_below(alloc, groups.len())?;
    let mut sets = Items::new(alloc);
    sets.push(places)?;
    Ok(Groups { groups, sets })
}

/// So many places. One that doesn't fit finds no memory.
fn places_below(alloc: Global, count: usize) -> Result<Items<u32>, NoMemory>
    ensures { IfOk result (λ places. places ≡ range_with_len 0 count) }
{
    let Ok(count) = u32::try_from(count) else {
        return Err(NoMemory);
    };
    let mut places = Items::new(alloc);
    for place in 0..count {
        places.push(place)?;
    }
    Ok(places)
}

/// The references of each grouping.
pub(crate) fn references_of(
    alloc: Global,
    groupings: &[Grouping],
) -> Result<Items<Items<u32>>, NoMemory>
    ensures { IfOk result (λ sets. sets ≡ map (λ grouping. (out-Grouping grouping).expression_references) groupings.now) }
{
    let mut sets = Items::new(alloc);
    for grouping in groupings {
        sets.push(grouping.expression_references.copy_in(alloc)?)?;
    }
    Ok(sets)
}
