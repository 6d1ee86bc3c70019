//! Tests of `table_rows`: the first fault of a batch, where texts are too long for a case, and nulls behind full bytes of
//! validity. Rows of files are cases of `worked_cases`.
#![tactic(auto)]

#[cfg(test)]
mod tests;
