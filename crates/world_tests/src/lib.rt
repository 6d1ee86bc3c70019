//! Tests of `world`: the world in memory, and the base types of `sub_types`. Expected values come from the formats
//! or from other tools, and none from the engine.
#![tactic(auto)]

#[cfg(test)]
mod tests;
