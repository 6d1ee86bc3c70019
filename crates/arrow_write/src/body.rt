// The body of a record batch in the making.
ghost use Rattle.std.specs.Prelude.{◌≡◌, ◌-◌, ◌++◌, [], ◌∷◌, OnOk, replicate};
ghost use Rattle.std.specs.List.{flat_map};
ghost use Rattle.fb_bytes.specs.Layout.{round_up};

use crate::numbers::append_numbers;
use col_fixed::Native;
use std::alloc::Global;
use sub_types::NoMemory;

// The buffers of columns one after the other, and what a message says of them.
#[derive(Drop)]
pub(crate) struct Body {
    pub(crate) bytes: Vec<u8>,
    // For each column the number of its values and of its nulls.
    pub(crate) nodes: Vec<(i64, i64)>,
    // For each buffer where it begins, and its length.
    pub(crate) places: Vec<(i64, i64)>,
}

impl Body {
    ghost use Rattle.arrow_write.specs.Bodies.{Puts, PutsNode};

    // No columns. It takes no memory.
    pub(crate) fn new(alloc: Global) -> Body
        ensures bytes { result.bytes.items ≡ [] }
        ensures nodes { result.nodes.items ≡ [] }
        ensures places { result.places.items ≡ [] }
    {
        Body {
            bytes: Vec::new(alloc),
            nodes: Vec::new(alloc),
            places: Vec::new(alloc),
        }
    }

    // Adds the number of values and of nulls of a column.
    pub(crate) fn put_node(&mut self, values: u64, nulls: u64) -> Result<(), NoMemory>
        ensures node { OnOk result (PutsNode self.old self.new (values, nulls)) }
        ensures bytes { self.new.bytes.items ≡ self.old.bytes.items }
        ensures places { self.new.places.items ≡ self.old.places.items }
    {
        self.nodes
            .push((values.cast_signed(), nulls.cast_signed()))?;
        Ok(())
    }

    // Adds a buffer, filled up to a multiple of eight bytes.
    pub(crate) fn put(&mut self, buffer: &[u8]) -> Result<(), NoMemory>
        ensures put { OnOk result (Puts self.old self.new (buffer.now ∷ [])) }
        ensures nodes { OnOk result (self.new.nodes.items ≡ self.old.nodes.items) }
    {
        let place = self.bytes.len() as i64;
        self.bytes.extend_from_slice(buffer)?;
        fill_up(&mut self.bytes, buffer.len())?;
        self.places.push((place, buffer.len() as i64))?;
        Ok(())
    }

    // Adds a buffer of numbers, filled up likewise.
    pub(crate) fn put_numbers<T: Native>(&mut self, numbers: &[T]) -> Result<(), NoMemory>
        ensures put { OnOk result (Puts self.old self.new (flat_map T.bytes_of numbers.now ∷ [])) }
        ensures nodes { OnOk result (self.new.nodes.items ≡ self.old.nodes.items) }
    {
        let place = self.bytes.len() as i64;
        let len = append_numbers(&mut self.bytes, numbers)?;
        fill_up(&mut self.bytes, len)?;
        self.places.push((place, len as i64))?;
        Ok(())
    }
}

// Zeros behind a buffer of `len` bytes up to a multiple of eight.
fn fill_up(bytes: &mut Vec<u8>, len: usize) -> Result<(), NoMemory>
    ensures { OnOk result (bytes.new.items ≡ bytes.old.items ++ replicate (round_up len - len) 0) }
{
    bytes.extend_from_slice(&[0; 8][..(8 - len % 8) % 8])?;
    Ok(())
}
