// The payloads of a message's fields by their numbers.
ghost use Rattle.std.specs.Prelude.{◌≡◌, ◌∷◌, List, length, IfOk};
ghost use Rattle.pb_wire.specs.Seen.{field_seen};
ghost use Rattle.pb_wire.specs.Payloads.{Field, fields_of};
ghost use Rattle.plan_scan.specs.Index.{IsIndex, AreIndexed};

use crate::records::Records;
use pb_wire::{Payload, Record};
use std::alloc::Global;
use sub_types::NoMemory;

/// Fields of lower numbers than this are in an index.
const NUMBERS: usize = 16;

/// A list for each of the lower numbers: the payloads of texts, bytes and messages of the field of that number, in one pass.
pub(crate) fn index_of<'a>(
    alloc: Global,
    records: Records<'_, 'a>,
) -> Result<Vec<Vec<&'a [u8]>>, NoMemory>
    ensures index { IfOk result (λ index. IsIndex index.items (fields_of records.entry)) }
    ensures lists { IfOk result (λ index. length index.items ≡ 16) }
{
    let mut index = no_lists(alloc)?;
    let mut records = records;
    while let Some(found) = records.next() {
        add(&mut index, &found)?;
    }
    Ok(index)
}

fn no_lists<'a>(alloc: Global) -> Result<Vec<Vec<&'a [u8]>>, NoMemory>
    ensures index { IfOk result (λ index. (all : List Field) → AreIndexed 0 index.items all all) }
    ensures lists { IfOk result (λ index. length index.items ≡ 16) }
{
    let mut index = Vec::new(alloc);
    while index.len() < NUMBERS {
        index.push(Vec::new(alloc))?;
    }
    Ok(index)
}

// Adds the payload of a record to its list, where there is one.
fn add<'a>(index: &mut Vec<Vec<&'a [u8]>>, found: &Record<'a>) -> Result<(), NoMemory>
    ensures lists { IfOk result (λ _. length index.new.items ≡ length index.old.items) }
    ensures index { IfOk result (λ _. (left all : List Field) → AreIndexed 0 index.old.items (field_seen found.now ∷ left) all → AreIndexed 0 index.new.items left all) }
{
    let Payload::Bytes(block) = found.payload else {
        return Ok(());
    };
    let number = found.number as usize;
    if number < index.len() {
        index[number].push(block)?;
    }
    Ok(())
}
