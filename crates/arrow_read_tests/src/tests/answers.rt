// Opening and reading, with a plain answer.
ghost use Rattle.std.specs.Prelude.{IsTrue, IsSome};
ghost use Rattle.arrow_read.specs.Known.{known_column};

use arrow_decode::decode;
use arrow_meta::Shape;
use arrow_read::{FileHead, open_file, read_block};
use batch::{Batch, ColumnData};
use col_fixed::Fixed;
use std::alloc::Global;
use world::{Folder, MemFolder, MemReader};

// A reader of these bytes.
pub(super) fn reader_of(alloc: Global, bytes: &[u8]) -> Option<MemReader> {
    let mut folder = MemFolder::new(alloc);
    folder.put_file("f", bytes).ok()?;
    folder.reader(alloc, "f").ok()?
}

// A reader whose read with this index fails.
pub(super) fn failing_reader(alloc: Global, bytes: &[u8], index: u32) -> Option<MemReader> {
    let mut folder = MemFolder::new(alloc);
    folder.put_file("f", bytes).ok()?;
    folder.fail_read("f", index).ok()?;
    folder.reader(alloc, "f").ok()?
}

// Whether a column exists and can be read.
fn is_readable(head: &FileHead, column: u32) -> bool
    ensures { IsTrue result → IsSome (known_column head.now.schema.columns column) }
{
    match head.schema.columns.fields().get(column as usize) {
        Some(field) => match field.shape {
            Shape::Known { kind: _, layout: _ } => true,
            Shape::Skip { buffers: _ } => false,
        },
        None => false,
    }
}

// A column of a block, by a copy of the head.
pub(super) fn read(
    alloc: Global,
    reader: &mut MemReader,
    block: u32,
    column: u32,
) -> Option<Batch> {
    let head = open_file(alloc, reader).ok()?;
    let head = head.copy(alloc).ok()?;
    if block as usize >= head.blocks.len() || !is_readable(&head, column) {
        return None;
    }
    let raw = read_block(alloc, reader, &head, block, &[column]).ok()?;
    decode(alloc, &head.dictionaries, &raw).ok()
}

// Whether the one column has these numbers.
pub(super) fn has_numbers(batch: &Option<Batch>, numbers: &[i64]) -> bool {
    let Some(batch) = batch else {
        return false;
    };
    match batch.columns.first() {
        Some(column) => match &column.values {
            ColumnData::I64(found) => are_numbers(found, numbers),
            _ => false,
        },
        None => false,
    }
}

fn are_numbers(found: &Fixed<i64>, numbers: &[i64]) -> bool {
    if found.len() != numbers.len() {
        return false;
    }
    for i in 0..numbers.len() {
        if found.value_at(i) != Some(numbers[i]) {
            return false;
        }
    }
    true
}
