//! Tests of `arrow_meta`: the metadata of Arrow files of other writers. What is written is compared in `worked_cases`.
//! Expected values come from the formats or from other tools, and none from the engine.
#![tactic(auto)]

#[cfg(test)]
mod tests;
