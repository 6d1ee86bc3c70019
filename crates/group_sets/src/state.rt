// What is known of the rows so far.
use set_states::Sets;
use sub_types::Fault;

/// The most rows of the input.
pub(crate) const MAX_INPUT: u64 = 1 << 40;

/// What is known of the rows so far.
#[derive(Drop)]
pub enum State {
    /// The groups of each set, of the rows, which aren't too many.
    Known(Sets),
    /// The rows are too many, and none of them has a fault.
    TooMany,
    /// The first fault.
    Ended(Fault),
    /// No memory was found.
    Lost,
}
