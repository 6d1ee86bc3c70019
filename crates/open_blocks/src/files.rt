// The open files of a read relation.
use block_source::TableBlocks;

/// The files of a read relation: the number of the relation, their heads and where their blocks stand, for each file its number among the
/// words, and a reader of each.
#[derive(Drop)]
pub struct ReadFiles<R> {
    pub relation: u32,
    pub blocks: TableBlocks,
    pub numbers: Vec<u32>,
    pub readers: Vec<R>,
}
