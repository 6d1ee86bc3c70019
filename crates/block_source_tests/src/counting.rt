// A work that counts the rows of a block.
use block_source::BlockRead;
use pipe_labour::Work;
use round_end::Outcome;
use std::alloc::Global;
use sub_types::{Fault, FaultKind, NoMemory};

/// Counts the rows of a block. A bad block is a fault at relation 0.
#[derive(Clone, Copy, Debug)]
pub struct RowCount;

// The fault of a bad block.
const BAD: Fault = Fault {
    relation: 0,
    kind: FaultKind::BadBatch { file: 0, block: 0 },
};

impl Work<BlockRead> for RowCount {
    type Made = Outcome<u64>;

    type Sense = ();

    ghost use Rattle.block_source_tests.specs.Counted.{IsCountOf};

    ghost sense = { λ _. tt };

    ghost makes = { λ _ _ given made. IsCountOf given made };

    fn make(
        &self,
        _alloc: Global,
        _number: u64,
        given: BlockRead,
    ) -> Result<Outcome<u64>, NoMemory> {
        match given {
            BlockRead::Whole(raw) => Ok(Outcome::Made(raw.meta.length.unsigned_abs())),
            BlockRead::Bad => Ok(Outcome::Ended(0, BAD)),
            BlockRead::Failed => Ok(Outcome::ReadFault),
            BlockRead::Absent => Ok(Outcome::Ended(0, BAD)),
        }
    }
}
