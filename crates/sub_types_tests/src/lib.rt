//! Tests of `sub_types`: truth values by whole bytes, against the same one by one.
#![tactic(auto)]

#[cfg(test)]
mod bits;
