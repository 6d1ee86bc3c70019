//! Tests of `plan_decode`: trees of plans that no run shows yet, against trees that were worked out by hand. Which plans
//! can't be read, and in how many records a message may stand, are cases of `worked_cases`.
#![tactic(auto)]

#[cfg(test)]
mod tests;
