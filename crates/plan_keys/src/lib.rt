//! The groups of an aggregate, found by their expressions. Each expression has a key, the expression written out as whole
//! numbers, and the first place of each key is kept: most are found at once by a digest of the key, the others in
//! logarithmic time, so that no plan can make it slow. Its meaning stands in `specs/`.
#![tactic(auto)]

mod digests;
mod first_places;
mod group_index;
mod group_place;
mod keys;
mod laws;
mod numbers;
mod parts;

pub use group_index::GroupIndex;
pub use group_place::GroupPlace;
pub use keys::key_of;
pub use laws::equal_keys_are_of_equal_exprs;
