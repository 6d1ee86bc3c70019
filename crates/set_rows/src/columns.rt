// What the measures keep of the values that they are over.
ghost use Rattle.std.specs.Prelude.{◌≡◌, ◌≤◌, ℕ, List, true, false, map, length, All, IfOk};
ghost use Rattle.plan_denote.specs.Computed.{Row};
ghost use Rattle.plan_denote.specs.Aggregate as aggregate;
ghost use Rattle.plan_denote.specs.Aggregate.{Entry};
ghost use Rattle.plan_denote.specs.GroupSets.{entry_in};
ghost use Rattle.group_numbers.specs.Keys.{IsOnce};
ghost use Rattle.group_tallies.specs.Kept.{tallies_in, keeping_in};
ghost use Rattle.group_columns.specs.Columns.{count_in};
ghost use Rattle.group_states.specs.States.{kept_in, columns_kept};
ghost use Rattle.group_firsts.specs.Firsts.{AreFirsts, AreWithin, kept_once};
ghost use Rattle.set_states.specs.States as spec;
ghost use Rattle.set_states.specs.States.{IsKnown};
ghost use Rattle.set_rows.specs.Rows.{AreSized, columns_final};

use group_firsts::Firsts;
use group_tallies::{Tallies, keeping_of};
use plan_typed::SetMeasure;
use std::alloc::Global;
use sub_types::NoMemory;

/// What each measure keeps of the groups of a set, of which it has this of all values, and these distinct ones.
pub(crate) fn final_columns(
    alloc: Global,
    measures: &[SetMeasure],
    groups: usize,
    columns: Vec<Tallies>,
    firsts: &[Firsts],
) -> Result<Vec<Tallies>, NoMemory>
    requires known { (keys : List Row) × (entries : List Entry) × spec.AreKept measures.now keys entries firsts.now × (length keys ≡ groups) × (length entries ≤ aggregate.MAX_INPUT) }
    requires kinds { map keeping_in columns.items ≡ map spec.keeping measures.now }
    requires sized { All (λ tallies. length (tallies_in tallies) ≡ groups) columns.items }
    requires few { All (λ tallies. count_in (tallies_in tallies) ≤ aggregate.MAX_INPUT) columns.items }
    ensures sized { IfOk result (λ more. AreSized measures.now groups more.items) }
    ensures tallies { (keys : List Row) (entries : List Entry) → map kept_in columns.items ≡ columns_kept 0 (map spec.keeping measures.now) entries keys → spec.AreKept measures.now keys entries firsts.now → IsOnce keys → length keys ≡ groups → IfOk result (λ more. map kept_in more.items ≡ columns_final 0 measures.now entries keys) }
{
    let mut more = Vec::new(alloc);
    let mut place = 0;
    for tallies in columns {
        let one = final_column(alloc, &measures[place], groups, tallies, &firsts[place])?;
        more.push(one)?;
        place += 1;
    }
    Ok(more)
}

fn final_column(
    alloc: Global,
    measure: &SetMeasure,
    groups: usize,
    tallies: Tallies,
    firsts: &Firsts,
) -> Result<Tallies, NoMemory>
    requires kind { keeping_in tallies ≡ spec.keeping measure.now }
    requires sized { length (tallies_in tallies) ≡ groups }
    requires few { count_in (tallies_in tallies) ≤ aggregate.MAX_INPUT }
    requires within { measure.now.distinct ≡ true → AreWithin groups firsts.now × (length firsts.now.groups.items ≤ aggregate.MAX_INPUT) }
    ensures kind { IfOk result (λ one. keeping_in one ≡ spec.keeping measure.now) }
    ensures sized { IfOk result (λ one. length (tallies_in one) ≡ groups) }
    ensures few { IfOk result (λ one. count_in (tallies_in one) ≤ aggregate.MAX_INPUT) }
    ensures all { measure.now.distinct ≡ false → IfOk result (λ one. tallies_in one ≡ tallies_in tallies) }
    ensures once { (keys : List Row) (entries : List Entry) (place : ℕ) → measure.now.distinct ≡ true → AreFirsts keys entries place firsts.now → IsOnce keys → length keys ≡ groups → IfOk result (λ one. tallies_in one ≡ map (kept_once (spec.keeping measure.now) entries place) keys) }
{
    let distinct = measure.distinct;
    if !distinct {
        return Ok(tallies);
    }
    let once = firsts.tallies(alloc, keeping_of(measure.measure.func), groups)?;
    Ok(once)
}
