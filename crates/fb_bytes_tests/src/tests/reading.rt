// Buffers of another writer, written out by hand, and hostile bytes with the place that each is refused at.
use fb_bytes::{BadBuffer, FbVector, Table};
use test_bytes::FOOTER;

// Two tables that share one vtable, which stands behind them; in both slot 1 stands before slot 0.
const SHARED_VTABLE: [u8; 40] = [
    0x08, 0x00, 0x00, 0x00, 0x00, 0x00, 0x00, 0x00, // root at 8
    0xE8, 0xFF, 0xFF, 0xFF, 0x08, 0x00, 0x00, 0x00, // its vtable at 32, slot 1 leads to 20
    0x2A, 0x00, 0x00, 0x00, 0xF4, 0xFF, 0xFF, 0xFF, // slot 0; the other table, its vtable at 32
    0x07, 0x00, 0x00, 0x00, 0x09, 0x00, 0x00, 0x00, // slots 1 and 0
    0x08, 0x00, 0x0C, 0x00, 0x08, 0x00, 0x04, 0x00, // the vtable
];

// A text in slot 0, two structs of two bytes in slot 1, and an entry of 0 for slot 2.
const TEXT_AND_STRUCTS: [u8; 44] = [
    0x10, 0x00, 0x00, 0x00, 0x0A, 0x00, 0x0C, 0x00, // root at 16; the vtable
    0x04, 0x00, 0x08, 0x00, 0x00, 0x00, 0x00, 0x00, //
    0x0C, 0x00, 0x00, 0x00, 0x08, 0x00, 0x00, 0x00, // the root; slot 0 leads to 28
    0x0C, 0x00, 0x00, 0x00, 0x03, 0x00, 0x00, 0x00, // slot 1 leads to 36; the text
    0x61, 0x62, 0x63, 0x00, 0x02, 0x00, 0x00, 0x00, // and the vector
    0x01, 0x02, 0x03, 0x04, //
];

// A vtable of 7 bytes, which has no whole entry for slot 1. Slot 0 has 42, at 16.
const ODD_VTABLE: [u8; 20] = [
    0x0C, 0x00, 0x00, 0x00, 0x07, 0x00, 0x08, 0x00, //
    0x04, 0x00, 0x04, 0x00, 0x08, 0x00, 0x00, 0x00, //
    0x2A, 0x00, 0x00, 0x00, //
];

// Slot 0 leads to a vector at 20, whose count is the largest there is.
const LARGEST_COUNT: [u8; 24] = [
    0x0C, 0x00, 0x00, 0x00, 0x06, 0x00, 0x08, 0x00, //
    0x04, 0x00, 0x00, 0x00, 0x08, 0x00, 0x00, 0x00, //
    0x04, 0x00, 0x00, 0x00, 0xFF, 0xFF, 0xFF, 0xFF, //
];

// What a reading gave, with the place that it was refused at.
fn placed<T: Drop>(read: Result<T, BadBuffer>) -> Result<T, i64> {
    match read {
        Ok(found) => Ok(found),
        Err(bad) => Err(bad.place),
    }
}

// The root table of a buffer, which is short.
fn root(bytes: &[u8]) -> Result<Table<'_>, i64> {
    if bytes.len() >= 4096 {
        return Err(0);
    }
    placed(Table::root(bytes))
}

// What stands in a slot as a number of so many bytes, or `None` where there is no table.
fn number(table: &Option<Table<'_>>, slot: u16, width: u8) -> Option<Result<Option<u64>, i64>> {
    let Some(table) = table else {
        return None;
    };
    match width {
        1 => Some(placed(table.scalar(slot, 1))),
        2 => Some(placed(table.scalar(slot, 2))),
        4 => Some(placed(table.scalar(slot, 4))),
        8 => Some(placed(table.scalar(slot, 8))),
        _ => None,
    }
}

fn has_number(table: &Option<Table<'_>>, slot: u16, width: u8, want: u64) -> bool {
    number(table, slot, width) == Some(Ok(Some(want)))
}

fn has_no_number(table: &Option<Table<'_>>, slot: u16, width: u8) -> bool {
    number(table, slot, width) == Some(Ok(None))
}

// The table in a slot, where one is there.
fn table_in<'a>(table: &Option<Table<'a>>, slot: u16) -> Option<Table<'a>> {
    match table {
        Some(table) => match table.table(slot) {
            Ok(found) => found,
            Err(_) => None,
        },
        None => None,
    }
}

// Whether a slot has no table in it, and can be read.
fn has_no_table(table: &Option<Table<'_>>, slot: u16) -> bool {
    match table {
        Some(table) => match table.table(slot) {
            Ok(found) => found.is_none(),
            Err(_) => false,
        },
        None => false,
    }
}

// The only table of the vector in a slot.
fn only_table<'a>(table: &Option<Table<'a>>, slot: u16) -> Option<Table<'a>> {
    let Some(table) = table else {
        return None;
    };
    let Ok(Some(tables)) = table.vector(slot, 4) else {
        return None;
    };
    if tables.len() != 1 {
        return None;
    }
    tables.table_at(0).ok()
}

// Whether the text in a slot is this one, or whether there is none.
fn has_text(table: &Option<Table<'_>>, slot: u16, want: Option<&[u8]>) -> bool {
    match table {
        Some(table) => match table.text(slot) {
            Ok(found) => found == want,
            Err(_) => false,
        },
        None => false,
    }
}

// The vector in a slot, where one is there.
fn vector_in<'a>(table: &Option<Table<'a>>, slot: u16, width: u32) -> Option<FbVector<'a>> {
    match table {
        Some(table) => match table.vector(slot, width) {
            Ok(found) => found,
            Err(_) => None,
        },
        None => None,
    }
}

// Whether a slot has no vector in it, and can be read.
fn has_no_vector(table: &Option<Table<'_>>, slot: u16) -> bool {
    match table {
        Some(table) => match table.vector(slot, 8) {
            Ok(found) => found.is_none(),
            Err(_) => false,
        },
        None => false,
    }
}

// Whether the vector is there and has so many items, with these bytes together.
fn has_elements(vector: &Option<FbVector<'_>>, count: u32, bytes: &[u8]) -> bool {
    match vector {
        Some(vector) => vector.len() == count
            && vector.is_empty() == (count == 0)
            && vector.elements() == bytes,
        None => false,
    }
}

// Whether an item of the vector has these bytes.
fn has_item(vector: &Option<FbVector<'_>>, place: u32, bytes: &[u8]) -> bool {
    match vector {
        Some(vector) => place < vector.len() && vector.item(place) == bytes,
        None => false,
    }
}

// Where the table in a slot is refused.
fn table_refusal(table: &Option<Table<'_>>, slot: u16) -> Option<i64> {
    match table {
        Some(table) => placed(table.table(slot)).err(),
        None => None,
    }
}

// Where the vector in a slot is refused, and where the text.
fn refusals(table: &Option<Table<'_>>, slot: u16, width: u32) -> [Option<i64>; 2] {
    match table {
        Some(table) => [
            placed(table.vector(slot, width)).err(),
            placed(table.text(slot)).err(),
        ],
        None => [None; 2],
    }
}

// Which of these doesn't hold, if one doesn't.
fn first_false(seen: &[bool]) -> Option<usize> {
    seen.iter().position(|holds| !*holds)
}

#[test]
fn footer_of_one_column(rt: HostRuntime) {
    let footer = root(&FOOTER).ok();
    let blocks = vector_in(&footer, 3, 24);
    let column = only_table(&table_in(&footer, 1), 1);
    let int = table_in(&column, 3);
    let seen = [
        has_number(&footer, 0, 2, 4),
        has_elements(&blocks, 1, &FOOTER[168..]),
        has_item(&blocks, 0, &FOOTER[168..]),
        has_text(&column, 0, Some(b"x")),
        has_number(&column, 2, 1, 2),
        has_number(&int, 0, 4, 64),
        // It has no dictionary and no children.
        has_no_table(&column, 4),
        has_elements(&vector_in(&column, 5, 4), 0, b""),
    ];
    assert_eq!(rt; first_false(&seen), None);
}

#[test]
fn buffers_of_another_writer(rt: HostRuntime) {
    let shared = root(&SHARED_VTABLE).ok();
    let other = table_in(&shared, 1);
    let seen = [
        has_number(&shared, 0, 1, 42),
        has_number(&shared, 0, 2, 42),
        has_number(&shared, 0, 4, 42),
        has_number(&shared, 0, 8, 0xFFFF_FFF4_0000_002A),
        has_no_number(&shared, 2, 1),
        has_no_number(&shared, u16::MAX, 1),
        has_number(&other, 0, 4, 9),
        has_number(&other, 1, 4, 7),
    ];
    assert_eq!(rt; first_false(&seen), None);
    let root = root(&TEXT_AND_STRUCTS).ok();
    let structs = vector_in(&root, 1, 2);
    let seen = [
        has_text(&root, 0, Some(b"abc")),
        has_elements(&structs, 2, &[1, 2, 3, 4]),
        has_item(&structs, 0, &[1, 2]),
        has_item(&structs, 1, &[3, 4]),
        has_text(&root, 2, None),
        has_no_vector(&root, 2),
        has_no_table(&root, 7),
    ];
    assert_eq!(rt; first_false(&seen), None);
}

#[test]
fn hostile_roots(rt: HostRuntime) {
    let buffers: [(&[u8], i64); 9] = [
        (&[], 0),
        (&[0x08, 0x00, 0x00], 0),
        (&[0x10, 0x00, 0x00, 0x00], 16),
        (&[0xFF, 0xFF, 0xFF, 0xFF], 0xFFFF_FFFF),
        (&[0x04, 0x00, 0x00, 0x00, 0x05, 0x00, 0x00, 0x00], -1),
        (
            &[0x04, 0x00, 0x00, 0x00, 0xFF, 0xFF, 0xFF, 0x7F],
            -0x7FFF_FFFB,
        ),
        (&[0x04, 0x00, 0x00, 0x00, 0xFC, 0xFF, 0xFF, 0xFF], 8),
        (
            &[
                0x08, 0x00, 0x00, 0x00, 0x03, 0x00, 0x04, 0x00, 0x04, 0x00, 0x00, 0x00,
            ],
            4,
        ),
        (
            &[
                0x08, 0x00, 0x00, 0x00, 0x09, 0x00, 0x04, 0x00, 0x04, 0x00, 0x00, 0x00,
            ],
            4,
        ),
    ];
    for (bytes, place) in buffers {
        assert!(rt; root(bytes).err() == Some(place));
    }
}

#[test]
fn hostile_fields(rt: HostRuntime) {
    let odd = root(&ODD_VTABLE).ok();
    let largest = root(&LARGEST_COUNT).ok();
    let empty = vector_in(&largest, 0, 0);
    let seen = [
        has_number(&odd, 0, 4, 42),
        // Half an entry is none.
        has_no_number(&odd, 1, 4),
        number(&odd, 0, 8) == Some(Err(16)),
        table_refusal(&odd, 0) == Some(58),
        refusals(&odd, 0, 1) == [Some(58); 2],
        refusals(&largest, 0, 1) == [Some(20); 2],
        refusals(&largest, 0, 4) == [Some(20); 2],
        refusals(&largest, 0, u32::MAX) == [Some(20); 2],
        has_elements(&empty, u32::MAX, b""),
        has_item(&empty, u32::MAX - 1, b""),
    ];
    assert_eq!(rt; first_false(&seen), None);
}
