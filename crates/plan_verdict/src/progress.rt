// How far a plan is checked.
use plan_leaves::Items;
use plan_typed::Sub;

/// The numbers that the next relation of a plan and the next expression of the relation at hand get, and the subqueries
/// that are done.
#[derive(Drop)]
pub struct Progress {
    pub relations: u32,
    pub nodes: u32,
    pub subs: Items<Sub>,
}
