//! What aggregates keep for each group: counts, exact totals, least and greatest values. What is kept of the tallies of `plan_denote`
//! is `kept` in `specs/Kept.antt`; how tallies of some rows and of the rows behind them are merged stands in `group_laws`.
#![tactic(auto)]

mod adding;
mod exact;
mod finals;
mod merging;
mod running;
mod tallies;

ghost use Rattle.std.specs.Prelude.{◌≡◌, ◌<◌, ℕ, List, length};
ghost use Rattle.sub_types.specs.declared.value.Value.{Value};
ghost use Rattle.plan_denote.specs.Tally.{Tally, not_null, tally_of};
ghost use Rattle.group_laws.specs.Merged.{tallies_merged};
ghost use Rattle.group_tallies.specs.declared.tallies.Keeping.{Keeping};
ghost use Rattle.group_tallies.specs.Kept.{kept, tally_at, with_values, values_of, AreThere};

pub use tallies::{Keeping, Tallies, keeping_of};

/// Values that go to their groups one after the other leave each group with what is kept of its own values, behind what it had.
pub fn groups_keep_their_values()
    ensures { (keeping : Keeping) (tallies : List Tally) (values : List (ℕ × Value)) (group : ℕ) → group < length tallies → AreThere tallies values → tally_at (with_values keeping tallies values) group ≡ tallies_merged (tally_at tallies group) (kept keeping (tally_of (not_null (values_of group values)))) }
{}
