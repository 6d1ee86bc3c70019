//! Tests of `fb_bytes`: FlatBuffers, read and laid out. Expected values come from the formats or from other tools,
//! and none from the engine.
#![tactic(auto)]

#[cfg(test)]
mod tests;
