//! Tests of `eval_batch`: expressions of every form at selected rows of batches, beside each row by itself.
#![tactic(auto)]

#[cfg(test)]
mod batches;
#[cfg(test)]
mod beside;
#[cfg(test)]
mod calls;
#[cfg(test)]
mod choices;
#[cfg(test)]
mod samples;
#[cfg(test)]
mod tests;
