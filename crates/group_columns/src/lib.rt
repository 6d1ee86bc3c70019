//! What is kept of each group for a measure, by the numbers of the groups (`group_numbers`): the rows of a batch or the groups of a
//! later part go to it, and it stays what is kept of all rows.
#![tactic(auto)]

mod columns;
mod rows;
mod taken;

ghost use Rattle.std.specs.Prelude.{◌≡◌, ◌++◌, ℕ, List, length, map};
ghost use Rattle.plan_denote.specs.Computed.{Row};
ghost use Rattle.plan_denote.specs.Aggregate.{Entry};
ghost use Rattle.group_tallies.specs.declared.tallies.Keeping.{Keeping};
ghost use Rattle.group_numbers.specs.Keys.{IsOnce, AreAt, with_keys};
ghost use Rattle.group_columns.specs.Columns.{padded, with_members, with_tallies, kept_at, keys_of, members_at, Covers};

pub use columns::{with_groups, with_rows};
pub use taken::Taken;

/// What is kept of the groups of some rows, with what a measure takes of the rows behind them, is what is kept of the groups of all of
/// them.
pub fn rows_are_kept()
    ensures { (keeping : Keeping) (entries later : List Entry) (place : ℕ) (keys : List Row) (numbers : List ℕ) → Covers keys entries → IsOnce (with_keys keys (keys_of later)) → AreAt (with_keys keys (keys_of later)) numbers (keys_of later) → with_members keeping (padded (length (with_keys keys (keys_of later))) (map (kept_at keeping entries place) keys)) numbers (members_at place later) ≡ map (kept_at keeping (entries ++ later) place) (with_keys keys (keys_of later)) }
{}

/// What is kept of the groups of some rows, with what is kept of the groups of the rows behind them, is what is kept of the groups of
/// all of them.
pub fn groups_are_merged()
    ensures { (keeping : Keeping) (entries later : List Entry) (place : ℕ) (keys others : List Row) (numbers : List ℕ) → Covers keys entries → Covers others later → IsOnce (with_keys keys others) → IsOnce others → AreAt (with_keys keys others) numbers others → with_tallies (padded (length (with_keys keys others)) (map (kept_at keeping entries place) keys)) numbers (map (kept_at keeping later place) others) ≡ map (kept_at keeping (entries ++ later) place) (with_keys keys others) }
{}
