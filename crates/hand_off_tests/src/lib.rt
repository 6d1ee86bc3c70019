//! A small labour over numbers, run by many workers, and the tests of the run machine, the claims and the hand-off.
#![tactic(auto)]

mod crew;
#[cfg(test)]
mod fork;
mod numbers;
#[cfg(test)]
mod parts;
#[cfg(test)]
mod run;
#[cfg(test)]
mod tests;

pub use crew::Worker;
pub use numbers::{Item, Numbers};
