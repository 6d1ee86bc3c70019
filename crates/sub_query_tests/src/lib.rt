//! Tests of `sub_query` over batches: what they are worth, and a plan whose subquery is given its rows. Which node of which
//! relation a value goes to is tested by the plans of `plan_rows_tests`.
#![tactic(auto)]

#[cfg(test)]
mod batches;
#[cfg(test)]
mod in_turn;
#[cfg(test)]
mod trees;
#[cfg(test)]
mod worths;
