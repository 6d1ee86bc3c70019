//! When a checked plan is well typed, by definitions over the typed tree (`plan_typed`) and the table of functions (`func_table`), which the checker shares.
#![tactic(auto)]
