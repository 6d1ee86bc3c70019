//! Tests of `plan_tables` over a folder in memory: two tables of one read relation are read one after the other, and every
//! reader comes back, also after a failed read and for a name that no word binds.
#![tactic(auto)]

#[cfg(test)]
mod tests;
