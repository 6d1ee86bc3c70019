// Footers that are refused, and damaged counts.
ghost use Rattle.std.specs.Prelude.{◌<◌};

use super::digits::bytes_of;
use super::refusals_foreign::{
    BIG_ENDIAN, EMPTY, LIST, LIST_AND_BAD_BLOCKS, LIST_IN_DICTIONARY, NO_DATE, NO_DECIMAL, NO_INT,
    NO_SCHEMA, NO_TAG, NO_TIMESTAMP, NO_VERSION, V3, V6,
};
use arrow_meta::{MetaError, read_footer, read_message};
use std::alloc::Global;
use test_bytes::{FOOTER, RECORD_MESSAGE};

const BAD: Option<MetaError> = Some(MetaError::Bad);

fn unsupported(column: u32) -> Option<MetaError> {
    Some(MetaError::Unsupported { column })
}

// Whether a footer is refused for this reason, or for none.
fn is_refused(alloc: Global, digits: &str, why: Option<MetaError>) -> bool {
    match bytes_of(alloc, digits) {
        Some(bytes) => read_footer(alloc, &bytes).err() == why,
        None => false,
    }
}

// Why a footer is refused once there are four other bytes at a place.
fn damaged_footer(alloc: Global, place: usize, word: [u8; 4]) -> Option<MetaError>
    requires { place < 188 }
{
    let mut bytes = FOOTER;
    bytes[place..place + 4].copy_from_slice(&word);
    read_footer(alloc, &bytes).err()
}

// The same of a record batch message.
fn damaged_record(alloc: Global, place: usize, word: [u8; 4]) -> Option<MetaError>
    requires { place < 132 }
{
    let mut bytes = RECORD_MESSAGE;
    bytes[place..place + 4].copy_from_slice(&word);
    read_message(alloc, &bytes).err()
}

#[test]
fn refused(rt: HostRuntime) {
    for footer in [
        V3,
        V6,
        NO_VERSION,
        BIG_ENDIAN,
        NO_SCHEMA,
        NO_INT,
        NO_DECIMAL,
        NO_DATE,
        NO_TIMESTAMP,
        LIST_AND_BAD_BLOCKS,
    ] {
        assert!(rt; is_refused(rt.alloc(), footer, BAD));
    }
    for (footer, column) in [(LIST, 1), (LIST_IN_DICTIONARY, 1), (NO_TAG, 0)] {
        assert!(rt; is_refused(rt.alloc(), footer, unsupported(column)));
    }
    assert!(rt; is_refused(rt.alloc(), EMPTY, None));
}

// Counts of fields, dictionaries, blocks, and bytes of a name. That of a column's children isn't looked at.
#[test]
fn damaged_counts(rt: HostRuntime) {
    let most = [255; 4];
    for place in [64, 156, 164, 112] {
        assert!(rt; place < 188 && damaged_footer(rt.alloc(), place, most) == BAD);
    }
    assert!(rt; damaged_footer(rt.alloc(), 164, [2, 0, 0, 0]) == BAD);
    assert!(rt; damaged_footer(rt.alloc(), 148, most) == None);
    // Counts of nodes and of buffers.
    for place in [76, 100] {
        assert!(rt; place < 132 && damaged_record(rt.alloc(), place, most) == BAD);
    }
    assert!(rt; damaged_record(rt.alloc(), 100, [3, 0, 0, 0]) == BAD);
    assert!(rt; damaged_record(rt.alloc(), 100, [1, 0, 0, 0]) == None);
}
