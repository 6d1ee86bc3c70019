//! Tests of `arrow_read`: which reads a file and its block take. What files hold, and why they are refused, are cases of
//! `worked_cases`.
#![tactic(auto)]

#[cfg(test)]
mod tests;
