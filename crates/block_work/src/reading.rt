// A table that a pipeline reads.
ghost use Rattle.std.specs.Prelude.{◌≡◌, length, vec_len};
ghost use Rattle.std.proofs.Props.{props};
ghost use Rattle.block_work.specs.Reads.{StartsWithRead, StartsWithRead-prop};

use block_source::TableBlocks;
use pipe_work::PipeSteps;

/// The steps that the blocks of a table go through, of which the first is the read relation's, with the relation's number, and for each
/// file of the table its number among the words.
#[derive(Drop)]
pub struct TableSteps<'p, 's> {
    pub pipe: &'p PipeSteps<'s>,
    pub table: &'p TableBlocks,
    pub numbers: &'p [u32],
    pub relation: u32,
    pub ghost count: { length numbers.now ≡ vec_len table.now.files } by { Prim.hlevel props },
    pub ghost reads: { StartsWithRead pipe.now.steps } by { StartsWithRead-prop pipe.now.steps },
}
