//! The keys of rows: their bytes, which are equal exactly where the keys are, whether two are equal or match, and
//! their order. A key is the values of some columns at a row. It stands on `batch` for columns and on `plan_denote`
//! for the order of keys, and hands on the hashes of `key_hashes`.
#![tactic(auto)]

mod bytes;
mod equality;
mod matching;
mod order;
mod values;

pub use bytes::{key_bytes, write_key};
pub use equality::{same_keys, same_keys_at};
pub use key_hashes::{hash_key, hash_keys, number_keys, whole_keys};
pub use matching::matching_keys;
pub use order::compare_keys;
