// Footers of another writer, column by column.
use super::digits::bytes_of;
use super::foreign::{INDEXED, PLAIN, TYPED};
use arrow_meta::{Block, FieldMeta, Layout, Shape, read_footer};
use std::alloc::Global;
use sub_types::Kind;

// The columns have these names, nullable flags and kinds, and this layout.
fn are_known(fields: &[FieldMeta], layout: Layout, want: &[(&str, bool, Kind)]) -> bool {
    if fields.len() != want.len() {
        return false;
    }
    for (field, (name, nullable, kind)) in fields.iter().zip(want) {
        if !is_known(field, name.as_bytes(), *nullable, *kind, layout) {
            return false;
        }
    }
    true
}

fn is_known(field: &FieldMeta, name: &[u8], nullable: bool, kind: Kind, layout: Layout) -> bool {
    let shape = Shape::Known { kind, layout };
    field.name.bytes() == name && field.nullable == nullable && field.shape == shape
}

// The columns are texts under dictionaries of these ids, with indices of these widths, with a sign or not.
fn are_indices(fields: &[FieldMeta], is_wide: bool, want: &[(&str, i64, u8, bool)]) -> bool {
    if fields.len() != want.len() {
        return false;
    }
    for (field, (name, id, width, signed)) in fields.iter().zip(want) {
        let layout = Layout::Index {
            id: *id,
            width: *width,
            signed: *signed,
            wide: is_wide,
        };
        if !is_known(field, name.as_bytes(), field.nullable, Kind::Text, layout) {
            return false;
        }
    }
    true
}

// The columns can't be read, and have two buffers each.
fn are_skipped(fields: &[FieldMeta], names: &[&str]) -> bool {
    if fields.len() != names.len() {
        return false;
    }
    for (field, name) in fields.iter().zip(names) {
        let skipped = Shape::Skip { buffers: 2 };
        if field.name.bytes() != name.as_bytes() || field.shape != skipped {
            return false;
        }
    }
    true
}

fn are_blocks(blocks: &[Block], want: &[(i64, i32, i64)]) -> bool {
    if blocks.len() != want.len() {
        return false;
    }
    for (block, want) in blocks.iter().zip(want) {
        if (block.offset, block.meta_len, block.body_len) != *want {
            return false;
        }
    }
    true
}

const PLAIN_KINDS: [(&str, bool, Kind); 7] = [
    ("truth", true, Kind::Bool),
    ("i8", true, Kind::I8),
    ("i16", false, Kind::I16),
    ("i32", false, Kind::I32),
    ("i64", true, Kind::I64),
    ("binary", false, Kind::Binary),
    ("text", true, Kind::Text),
];

const WIDE_KINDS: [(&str, bool, Kind); 2] = [
    ("", false, Kind::Binary),
    ("large", false, Kind::Text),
];

const PLAIN_SKIPPED: [&str; 8] = [
    "i24", "u8", "u64", "float", "time", "interval", "sized", "lasting",
];

fn are_plain(fields: &[FieldMeta]) -> bool {
    if fields.len() != 17 {
        return false;
    }
    are_known(&fields[..7], Layout::Plain, &PLAIN_KINDS)
        && are_known(&fields[7..9], Layout::Wide, &WIDE_KINDS)
        && are_skipped(&fields[9..], &PLAIN_SKIPPED)
}

const TYPED_KINDS: [(&str, bool, Kind); 5] = [
    (
        "d10",
        false,
        Kind::Decimal {
            precision: 10,
            scale: 2,
        },
    ),
    (
        "d38",
        false,
        Kind::Decimal {
            precision: 38,
            scale: 38,
        },
    ),
    (
        "d1",
        false,
        Kind::Decimal {
            precision: 1,
            scale: 0,
        },
    ),
    ("day", false, Kind::Date),
    ("us", false, Kind::Timestamp),
];

const TYPED_SKIPPED: [&str; 10] = [
    "wide", "d0", "d39", "over", "under", "ms", "no zone", "zone", "s", "ns",
];

fn are_typed(fields: &[FieldMeta]) -> bool {
    if fields.len() != 15 {
        return false;
    }
    are_known(&fields[..5], Layout::Plain, &TYPED_KINDS)
        && are_skipped(&fields[5..], &TYPED_SKIPPED)
}

const INDICES: [(&str, i64, u8, bool); 6] = [
    ("a", 7, 1, true),
    ("b", -1, 2, true),
    ("c", 7, 4, true),
    ("d", 7, 8, true),
    ("e", 7, 1, false),
    ("j", 0, 4, true),
];

const WIDE_INDICES: [(&str, i64, u8, bool); 3] = [
    ("f", 7, 2, false),
    ("g", 7, 4, false),
    ("h", i64::MAX, 8, false),
];

const INDEXED_SKIPPED: [&str; 10] = ["i", "k", "l", "m", "n", "o", "p", "q", "r", "s"];

fn are_indexed(fields: &[FieldMeta]) -> bool {
    if fields.len() != 19 {
        return false;
    }
    are_indices(&fields[..6], false, &INDICES)
        && are_indices(&fields[6..9], true, &WIDE_INDICES)
        && are_skipped(&fields[9..], &INDEXED_SKIPPED)
}

fn is_plain(alloc: Global) -> bool {
    let Some(bytes) = bytes_of(alloc, PLAIN) else {
        return false;
    };
    match read_footer(alloc, &bytes) {
        Ok((schema, dictionaries, records)) => are_plain(schema.columns.fields())
            && are_blocks(&dictionaries, &[(8, 200, 64), (272, 200, 0)])
            && are_blocks(&records, &[(472, 160, 1 << 33), (1 << 62, -1, -2)]),
        Err(_) => false,
    }
}

fn is_typed(alloc: Global) -> bool {
    let Some(bytes) = bytes_of(alloc, TYPED) else {
        return false;
    };
    match read_footer(alloc, &bytes) {
        Ok((schema, dictionaries, records)) => are_typed(schema.columns.fields())
            && dictionaries.is_empty()
            && records.is_empty(),
        Err(_) => false,
    }
}

fn is_indexed(alloc: Global) -> bool {
    let Some(bytes) = bytes_of(alloc, INDEXED) else {
        return false;
    };
    match read_footer(alloc, &bytes) {
        Ok((schema, _dictionaries, _records)) => are_indexed(schema.columns.fields()),
        Err(_) => false,
    }
}

#[test]
fn every_tag_type_table_and_dictionary(rt: HostRuntime) {
    assert!(rt; is_plain(rt.alloc()));
    assert!(rt; is_typed(rt.alloc()));
    assert!(rt; is_indexed(rt.alloc()));
}
