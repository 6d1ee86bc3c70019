//! The numbers of groups by their keys, from 0 in the order in which the keys first appear. A key of one whole number is kept as that
//! number; any other one by its bytes, which the caller writes into one buffer, so that a key takes memory only where it is new.
#![tactic(auto)]

mod bytes;
mod numbers;

ghost use Rattle.std.specs.Prelude.{◌≡◌, ◌∷◌, ◌++◌, [], List};
ghost use Rattle.plan_denote.specs.Computed.{Row};
ghost use Rattle.plan_denote.specs.Distinct.{distinct, is_same_row};
ghost use Rattle.group_keys.specs.Keys.{with_item};

pub use bytes::group_of_bytes;
pub use numbers::group_of_number;

/// The keys with one key more, each once, are those that are there once, with that key.
pub fn keys_are_distinct()
    ensures { (keys : List Row) (key : Row) → with_item is_same_row (distinct is_same_row keys) key ≡ distinct is_same_row (keys ++ key ∷ []) }
{}
