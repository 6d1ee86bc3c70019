// What a worker does with what was read for a block.
ghost use Rattle.std.specs.Prelude.{IfOk};
ghost use Rattle.block_rows.specs.Made.{IsMadeOf};

use crate::made::{bad_rows, whole_rows};
use crate::table::TableRows;
use batch::Batch;
use block_source::BlockRead;
use pipe_labour::Work;
use round_end::Outcome;
use std::alloc::Global;
use sub_types::NoMemory;

/// Decodes a block, and tests its rows.
#[derive(Clone, Copy)]
pub struct RowsWork<'a> {
    pub rows: &'a TableRows<'a>,
}

impl<'a> Work<BlockRead> for RowsWork<'a> {
    type Made = Outcome<Batch>;

    type Sense = RowsWork<'a>;

    ghost use Rattle.block_rows.specs.Made.{IsMadeOf};

    ghost sense = { λ work. work };

    ghost makes = { λ work number given made. IsMadeOf work.rows.now number given made };

    fn make(
        &self,
        alloc: Global,
        number: u64,
        given: BlockRead,
    ) -> Result<Outcome<Batch>, NoMemory> {
        make_of(alloc, self.rows, number, given)
    }
}

fn make_of(
    alloc: Global,
    rows: &TableRows,
    number: u64,
    given: BlockRead,
) -> Result<Outcome<Batch>, NoMemory>
    ensures { IfOk result (IsMadeOf rows.now number given) }
{
    let Some(place) = rows.table.place(number) else {
        return Ok(Outcome::ReadFault);
    };
    match given {
        BlockRead::Whole(raw) => {
            let made = whole_rows(alloc, rows, place, &raw)?;
            Ok(made)
        }
        BlockRead::Bad => {
            let made = bad_rows(alloc, rows, place)?;
            Ok(made)
        }
        BlockRead::Failed | BlockRead::Absent => Ok(Outcome::ReadFault),
    }
}
