// The bytes of single objects, without those that they lead to: an offset is written as zeros first.
ghost use Rattle.std.specs.Prelude.{◌≡◌, ◌+◌, ◌*◌, ◌<◌, ◌≤◌, ◌^◌, ◌++◌, OnOk, length, replicate, vec_len};
ghost use Rattle.std.specs.List.{flat_map};
ghost use Rattle.byteorder.specs.Endian.{little_bytes};
ghost use Rattle.fb_bytes.specs.Layout.{Value, part_slot, part_width, slot_count, vtable, table_own, filled, of_width, cell_bytes, structs_laid, text_laid};
ghost use Rattle.fb_bytes.specs.Object.{part_of, parts_of};
ghost use Rattle.fb_bytes.specs.Writing.{blank, blanks};

use crate::FbField;
use crate::fields::{WIDTHS, entry, fields_width, slot_count, table_place};
use crate::put::{fill, put_number, put_zeros};
use sub_types::NoMemory;

// Appends a vtable and its table.
pub(crate) fn put_table(out: &mut Vec<u8>, fields: &[FbField]) -> Result<(), NoMemory>
    requires few { length fields.now ≤ 64 }
    requires slots { slot_count (parts_of fields.now) ≤ 64 }
    requires small { vec_len out.old < 2 ^ 31 }
    ensures { OnOk result (out.new.items
        ≡ out.old.items ++ filled (table_own (parts_of fields.now) (blanks (parts_of fields.now)))) }
{
    let start = out.len();
    let slots = slot_count(fields);
    put_vtable(out, slots, fields)?;
    let place = table_place(slots);
    put_zeros(out, place - (4 + 2 * slots))?;
    put_number(out, 4, place as u64)?;
    for width in WIDTHS {
        put_fields_of(out, width, fields)?;
    }
    fill(out, start)?;
    Ok(())
}

// Appends a vtable.
fn put_vtable(out: &mut Vec<u8>, slots: usize, fields: &[FbField]) -> Result<(), NoMemory>
    requires few { length fields.now ≤ 64 }
    requires slots { slots ≡ slot_count (parts_of fields.now) }
    requires bounded { slots ≤ 64 }
    ensures bytes { OnOk result (out.new.items ≡ out.old.items ++ vtable (parts_of fields.now)) }
    ensures len { OnOk result (vec_len out.new ≡ vec_len out.old + 4 + 2 * slots) }
{
    put_number(out, 2, (4 + 2 * slots) as u64)?;
    put_number(out, 2, (4 + fields_width(fields)) as u64)?;
    for slot in 0..slots {
        put_number(out, 2, entry(fields, slot) as u64)?;
    }
    Ok(())
}

// Appends the fields of one width.
fn put_fields_of(out: &mut Vec<u8>, width: usize, fields: &[FbField]) -> Result<(), NoMemory>
    requires { width ≤ 8 }
    ensures bytes { OnOk result (out.new.items
        ≡ out.old.items ++ flat_map (cell_bytes 0) (of_width width (blanks (parts_of fields.now)))) }
    ensures bound { OnOk result (vec_len out.new ≤ vec_len out.old + 8 * length fields.now) }
{
    for field in fields {
        if field.width() == width {
            put_number(out, width, blank_value(field))?;
        }
    }
    Ok(())
}

// What stands for a field until the object that it leads to stands.
fn blank_value(field: &FbField) -> u64
    ensures { blank (part_of field.now) ≡ Value (part_slot (part_of field.now)) (part_width (part_of field.now)) result }
{
    match field {
        FbField::Scalar { value, .. } => *value,
        FbField::Child { .. } => 0,
    }
}

// Appends the count of a vector of offsets, and the offsets.
pub(crate) fn put_blank_offsets(out: &mut Vec<u8>, count: usize) -> Result<(), NoMemory>
    requires few { count < 2 ^ 31 }
    requires small { vec_len out.old + 4 * count < 2 ^ 31 }
    ensures { OnOk result (out.new.items
        ≡ out.old.items ++ filled (little_bytes 4 count ++ replicate (4 * count) 0)) }
{
    let start = out.len();
    put_number(out, 4, count as u64)?;
    put_zeros(out, 4 * count)?;
    fill(out, start)?;
    Ok(())
}

// Appends a vector of structs.
pub(crate) fn put_structs(out: &mut Vec<u8>, width: u32, structs: &[u8]) -> Result<(), NoMemory>
    requires width { 0 < width }
    requires small { vec_len out.old + length structs.now < 2 ^ 31 }
    ensures { OnOk result (out.new.items ≡ out.old.items ++ (structs_laid width structs.now).bytes) }
{
    let start = out.len();
    put_zeros(out, 4)?;
    put_number(out, 4, (structs.len() / width as usize) as u64)?;
    out.extend_from_slice(structs)?;
    fill(out, start)?;
    Ok(())
}

// Appends a string, with a zero behind it.
pub(crate) fn put_text(out: &mut Vec<u8>, text: &[u8]) -> Result<(), NoMemory>
    requires { vec_len out.old + length text.now < 2 ^ 31 }
    ensures { OnOk result (out.new.items ≡ out.old.items ++ (text_laid text.now).bytes) }
{
    let start = out.len();
    put_number(out, 4, text.len() as u64)?;
    out.extend_from_slice(text)?;
    out.push(0)?;
    fill(out, start)?;
    Ok(())
}
