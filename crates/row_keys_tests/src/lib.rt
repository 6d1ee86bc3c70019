//! Tests of `row_keys`: the keys of a number and a binary value by their bytes, hashes and order, and the keys of two
//! batches whose columns stand in other places.
#![tactic(auto)]

#[cfg(test)]
mod batches;
#[cfg(test)]
mod keys;
#[cfg(test)]
mod sides;
