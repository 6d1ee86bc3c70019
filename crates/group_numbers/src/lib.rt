//! The numbers of the groups of a batch's rows, by the values of some of its columns. A group is found by the number
//! that its key is, or by the key's bytes, and a key is kept only for a new group.
#![tactic(auto)]

mod codes;
mod keys;
mod numbers;
mod twins;

ghost use Rattle.std.specs.Prelude.{◌≡◌, ◌++◌, List};
ghost use Rattle.plan_denote.specs.Computed.{Row};
ghost use Rattle.plan_denote.specs.Distinct.{distinct, is_same_row};
ghost use Rattle.group_numbers.specs.Keys.{with_keys};

pub use keys::GroupKeys;

/// The keys of some rows with those of the rows behind them are the keys of all of them, and so are the keys of some rows with the
/// keys of later groups.
pub fn keys_of_all_rows()
    ensures rows { (keys more : List Row) → with_keys (distinct is_same_row keys) more ≡ distinct is_same_row (keys ++ more) }
    ensures groups { (keys more : List Row) → with_keys (distinct is_same_row keys) (distinct is_same_row more) ≡ distinct is_same_row (keys ++ more) }
{}
