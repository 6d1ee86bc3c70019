//! Tests of `func_table`: each row of the table by a call of its own, calls that no row takes, and the options. Expected
//! values come from the standard's function files and from another model of the table, and none from the engine.
#![tactic(auto)]

#[cfg(test)]
mod tests;
