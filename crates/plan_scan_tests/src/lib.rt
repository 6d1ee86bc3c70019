//! Tests of `plan_scan`: plans' flaws and messages, and the wire format of `pb_wire`. Expected values come from the
//! formats or from other tools, and none from the engine.
#![tactic(auto)]

#[cfg(test)]
mod tests;
