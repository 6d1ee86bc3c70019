// Whole objects as bytes. An offset is written as zeros first, and over them once its object stands.
ghost use Rattle.std.specs.Prelude.{◌≡◌, ◌+◌, ◌*◌, ◌<◌, ◌≤◌, ◌^◌, ◌++◌, OnOk, IfOk, length, replicate, take, vec_len};
ghost use Rattle.std.specs.List.{All};
ghost use Rattle.byteorder.specs.Endian.{little_bytes};
ghost use Rattle.fb_bytes.specs.Layout.{table_own, table_laid, tables_laid, filled};
ghost use Rattle.fb_bytes.specs.Object.{laid, laid_each, parts_of, buffer, IsTable, IsSound, IsSoundTable, AreSoundFields, HasRisingSlots};
ghost use Rattle.fb_bytes.specs.ReadBack.{ReadsBuffer};
ghost use Rattle.fb_bytes.specs.Writing.{blanks};

use crate::fields::{entry, slot_count, table_place};
use crate::own::{put_blank_offsets, put_structs, put_table, put_text};
use crate::put::{put_number, put_zeros, set_offset};
use crate::{FbField, FbObject};
use std::alloc::Global;
use sub_types::NoMemory;

/// The buffer of a root table (FlatBuffers internals, "Tables"): the offset to the root, four zeros, and
/// the objects, each filled up to a multiple of 8 and with those that it leads to behind it. It takes
/// time linear in the size of the buffer, since a table has at most 64 slots.
pub fn fb_write(alloc: Global, root: &FbObject) -> Result<Vec<u8>, NoMemory>
    requires table { IsTable root.now }
    requires sound { IsSound root.now }
    requires small { length (buffer root.now) < 2 ^ 31 }
    ensures laid { IfOk result (λ bytes. bytes.items ≡ buffer root.now) }
    ensures read_back { IfOk result (λ bytes. ReadsBuffer bytes.items root.now) }
{
    let mut out = Vec::new(alloc);
    put_number(&mut out, 4, (8 + lead(root)) as u64)?;
    put_zeros(&mut out, 4)?;
    put_object(&mut out, root)?;
    Ok(out)
}

// Where in the bytes of the object an offset to it leads.
fn lead(object: &FbObject) -> usize
    requires { IsSound object.now }
    ensures value { result ≡ (laid object.now).lead }
    ensures bound { result < 2 ^ 10 }
{
    match object {
        FbObject::Table(fields) => table_place(slot_count(fields)),
        FbObject::Tables(_) | FbObject::Text(_) => 0,
        FbObject::Structs { .. } => 4,
    }
}

// Appends the object with all that it leads to.
#[cycle(put)]
fn put_object(out: &mut Vec<u8>, object: &FbObject) -> Result<(), NoMemory>
    requires sound { IsSound object.now }
    requires small { vec_len out.old + length (laid object.now).bytes < 2 ^ 31 }
    ensures { OnOk result (out.new.items ≡ out.old.items ++ (laid object.now).bytes) }
{
    let start = out.len();
    match object {
        FbObject::Table(fields) => {
            put_table(out, fields)?;
            put_children(out, start, fields)
        }
        FbObject::Tables(objects) => {
            put_blank_offsets(out, objects.len())?;
            put_tables(out, start, objects)
        }
        FbObject::Structs { width, bytes } => put_structs(out, *width, bytes.bytes()),
        FbObject::Text(bytes) => put_text(out, bytes.bytes()),
    }
}

// Appends the objects that a table leads to, and writes its offsets to them.
#[cycle(put)]
fn put_children(out: &mut Vec<u8>, start: usize, fields: &[FbField]) -> Result<(), NoMemory>
    requires slots { HasRisingSlots 0 (parts_of fields.now) }
    requires sound { AreSoundFields fields.now }
    requires own { out.old.items ≡ take start out.old.items
        ++ filled (table_own (parts_of fields.now) (blanks (parts_of fields.now))) }
    requires within { start ≤ vec_len out.old }
    requires small { start + length (table_laid (parts_of fields.now)).bytes < 2 ^ 31 }
    ensures { OnOk result (out.new.items ≡ take start out.old.items ++ (table_laid (parts_of fields.now)).bytes) }
{
    let table = start + table_place(slot_count(fields));
    for field in fields {
        match field {
            FbField::Scalar { .. } => {}
            FbField::Child { slot, object } => {
                let place = table + entry(fields, *slot as usize);
                let offset = out.len() + lead(object) - place;
                put_object(out, object)?;
                set_offset(out, place, offset as u32);
            }
        }
    }
    Ok(())
}

// Appends the tables that a vector leads to, and writes its offsets to them.
#[cycle(put)]
fn put_tables(out: &mut Vec<u8>, start: usize, objects: &[FbObject]) -> Result<(), NoMemory>
    requires sound { All IsSoundTable objects.now }
    requires own { out.old.items ≡ take start out.old.items
        ++ filled (little_bytes 4 (length objects.now) ++ replicate (4 * length objects.now) 0) }
    requires within { start ≤ vec_len out.old }
    requires small { start + length (tables_laid (laid_each objects.now)).bytes < 2 ^ 31 }
    ensures { OnOk result (out.new.items ≡ take start out.old.items ++ (tables_laid (laid_each objects.now)).bytes) }
{
    for (i, object) in objects.iter().enumerate() {
        let place = start + 4 + 4 * i;
        let offset = out.len() + lead(object) - place;
        put_object(out, object)?;
        set_offset(out, place, offset as u32);
    }
    Ok(())
}
