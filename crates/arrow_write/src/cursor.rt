// Where the next output batch begins in the input batches, and the parts of which it is made.
ghost use Rattle.std.specs.Prelude.{◌≡◌, ◌+◌, ◌≤◌, ◌<◌, ◌^◌, ◌⊎◌, IfOk, OnOk, length};
ghost use Rattle.std.specs.List.{All};

use batch::Batch;
use std::alloc::Global;
use sub_types::NoMemory;

// A row of a batch.
#[derive(Clone, Copy)]
pub(crate) struct Cursor {
    pub(crate) batch: usize,
    pub(crate) row: u64,
}

// The rows of a batch from `from` to before `to`.
#[derive(Clone, Copy)]
pub(crate) struct Part {
    pub(crate) batch: usize,
    pub(crate) from: u64,
    pub(crate) to: u64,
}

impl Cursor {
    ghost use Rattle.arrow_write.specs.Cut.{IsInside, rows_in, rows_before, place_of_row, rows_of_part, IsPartOf, AreRows};

    // The parts of the next `count` rows. The cursor stands behind them afterwards.
    pub(crate) fn next_parts(
        &mut self,
        alloc: Global,
        batches: &[Batch],
        count: u64,
    ) -> Result<Vec<Part>, NoMemory>
        requires inside { IsInside batches.now self.old }
        requires enough { rows_before batches.now self.old + count ≤ rows_in batches.now }
        ensures rows { IfOk result (λ parts. AreRows batches.now (rows_before batches.now self.old) count parts.items) }
        ensures lie { IfOk result (λ parts. All (IsPartOf batches.now) parts.items) }
        ensures moved { OnOk result (rows_before batches.now self.new ≡ rows_before batches.now self.old + count) }
        ensures inside { OnOk result (IsInside batches.now self.new) }
    {
        let mut parts = Vec::new(alloc);
        let mut left = count;
        while left > 0 {
            let part = self.next_part(batches, left);
            parts.push(part)?;
            left -= part.to - part.from;
        }
        Ok(parts)
    }

    // What is left of the cursor's batch, at most `most` rows of it. The cursor stands behind them afterwards.
    fn next_part(&mut self, batches: &[Batch], most: u64) -> Part
        requires exists { self.old.batch < length batches.now }
        requires inside { IsInside batches.now self.old }
        ensures lies { IsPartOf batches.now result }
        ensures begins { place_of_row batches.now result.batch result.from ≡ rows_before batches.now self.old }
        ensures few { rows_of_part result ≤ most }
        ensures moved { rows_before batches.now self.new ≡ rows_before batches.now self.old + rows_of_part result }
        ensures inside { IsInside batches.now self.new }
        ensures forward { self.old.batch ≤ self.new.batch }
        ensures nearer { (self.old.batch < self.new.batch) ⊎ (rows_of_part result ≡ most) }
    {
        let at = *self;
        let rows = batches[at.batch].rows;
        let taken = most.min(rows - at.row);
        let to = at.row + taken;
        *self = if to == rows {
            Cursor {
                batch: at.batch + 1,
                row: 0,
            }
        } else {
            Cursor {
                batch: at.batch,
                row: to,
            }
        };
        Part {
            batch: at.batch,
            from: at.row,
            to,
        }
    }
}
