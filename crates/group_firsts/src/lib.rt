//! The distinct values that a measure takes of each group, by the groups' numbers (`group_numbers`): each value with its group's key
//! is found by their bytes, and kept where it is new. What a measure over distinct values keeps of each group is made of them.
#![tactic(auto)]

mod firsts;

pub use firsts::Firsts;
