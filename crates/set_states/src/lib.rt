//! What is known of the groups of several sets: for each set its groups, as `group_states` knows them, and the values of the measures
//! over distinct ones, as `group_firsts` keeps them. The rows of a batch go to all sets, and what is known of later rows.
#![tactic(auto)]

mod firsts;
mod set;
mod sets;
mod start;

pub use set::SetGroups;
pub use sets::Sets;
pub use start::keepings_of;
