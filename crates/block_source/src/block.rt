// What reading a block gives.
use arrow_decode::Raw;

/// What reading gives for the number of a block.
#[derive(Debug, Drop)]
pub enum BlockRead {
    /// The block, not decoded yet.
    Whole(Raw),
    /// The file says what it can't say of the block.
    Bad,
    /// The read of the block failed.
    Failed,
    /// No block has the number.
    Absent,
}
