// What a round over a pipeline's input leaves.
use pipe_work::Part;
use run_core::Receipt;

/// What is kept of what the steps give, up to the first fault; one receipt for each worker, and the numbers of the pieces that the caller worked.
#[derive(Drop)]
pub struct PipeRound {
    pub parts: Vec<Part>,
    pub receipts: Vec<Receipt>,
    pub left: Vec<u64>,
}
