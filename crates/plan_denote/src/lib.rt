//! What a checked plan is worth, by definitions over the typed tree (`plan_typed`): what an expression is worth at a row, and what
//! rows the relations of a plan give.
#![tactic(auto)]
