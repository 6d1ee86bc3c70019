// What a worker does with what was read for a block.
ghost use Rattle.std.specs.Prelude.{IfOk};
ghost use Rattle.block_work.specs.Blocks.{IsMadeOf};

use crate::pieces::{bad_piece, whole_piece};
use crate::reading::TableSteps;
use arrow_decode::Raw;
use block_source::BlockRead;
use pipe_labour::Work;
use pipe_work::{Kept, outcome_of};
use round_end::Outcome;
use std::alloc::Global;
use sub_types::NoMemory;

/// Decodes a block, takes its rows through the table's steps, and keeps what their breaker needs.
#[derive(Clone, Copy)]
pub struct BlockWork<'l, 'p, 's> {
    pub steps: &'l TableSteps<'p, 's>,
}

impl<'l, 'p, 's> Work<BlockRead> for BlockWork<'l, 'p, 's> {
    type Made = Outcome<Kept>;

    type Sense = BlockWork<'l, 'p, 's>;

    ghost use Rattle.block_work.specs.Blocks.{IsMadeOf};

    ghost sense = { λ work. work };

    ghost makes = { λ work number given made. IsMadeOf work.steps.now number given made };

    fn make(
        &self,
        alloc: Global,
        number: u64,
        given: BlockRead,
    ) -> Result<Outcome<Kept>, NoMemory> {
        make_of(alloc, self.steps, number, given)
    }
}

fn make_of(
    alloc: Global,
    steps: &TableSteps,
    number: u64,
    given: BlockRead,
) -> Result<Outcome<Kept>, NoMemory>
    ensures { IfOk result (IsMadeOf steps.now number given) }
{
    let Some(place) = steps.table.place(number) else {
        return Ok(Outcome::ReadFault);
    };
    match given {
        BlockRead::Whole(raw) => {
            let Some(piece) = whole_piece(alloc, steps, place, &raw)? else {
                return Ok(Outcome::ReadFault);
            };
            let outcome = outcome_of(alloc, steps.pipe, piece)?;
            Ok(outcome)
        }
        BlockRead::Bad => {
            let piece = bad_piece(alloc, steps, place)?;
            let outcome = outcome_of(alloc, steps.pipe, piece)?;
            Ok(outcome)
        }
        BlockRead::Failed | BlockRead::Absent => Ok(Outcome::ReadFault),
    }
}
