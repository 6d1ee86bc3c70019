//! The rows of batches by their places: the places of all rows of several batches in order, batches of the rows at places, and
//! whether several batches can be joined into one. It stands on `batch`.
#![tactic(auto)]

mod few;
mod gather;
mod places;

pub use few::are_few;
pub use gather::{batches_at, gather_in_parts};
pub use places::{Place, all_places, is_row};
