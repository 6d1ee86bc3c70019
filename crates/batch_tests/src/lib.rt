//! Tests of `batch`: columns and batches, with `col_fixed` and `col_text`. Expected values come from the formats or
//! from other tools, and none from the engine.
#![tactic(auto)]

#[cfg(test)]
mod batches;
#[cfg(test)]
mod border;
#[cfg(test)]
mod numbers;
#[cfg(test)]
mod parts;
#[cfg(test)]
mod places;
#[cfg(test)]
mod texts;
#[cfg(test)]
mod truths;
