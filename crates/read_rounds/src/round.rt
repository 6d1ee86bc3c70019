// What a round leaves.
use run_core::Receipt;
use table_round::Part;

/// What a round over what feeds a pipeline left: what is kept of what the steps give, in parts in order; in how many batches it was fed, one
/// receipt for each worker, and the numbers of the batches that the caller worked.
#[derive(Drop)]
pub struct FeedRound {
    pub parts: Vec<Part>,
    pub batches: u64,
    pub receipts: Vec<Receipt>,
    pub left: Vec<u64>,
}
