//! Tests of `plan_keys`: an equal group is found where it stands first, among a few and among many.
#![tactic(auto)]

#[cfg(test)]
mod tests;
