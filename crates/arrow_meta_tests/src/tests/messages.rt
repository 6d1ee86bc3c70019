// Messages of another writer.
use super::digits::bytes_of;
use super::messages_foreign::{
    BARE, COMPRESSED, COMPRESSED_DICTIONARY, DELTA, FIRST, NEW, NO_DELTA, NO_HEADER, NO_ID,
    NO_VALUES, OLD, RECORD,
};
use arrow_meta::{MetaError, RecordMeta, read_dictionary, read_message};
use std::alloc::Global;

fn is_record(meta: &RecordMeta, length: i64, nodes: &[(i64, i64)], buffers: &[(i64, i64)]) -> bool {
    meta.length == length && meta.nodes.pairs() == nodes && meta.buffers.pairs() == buffers
}

// The message is one of a record batch that says this.
fn reads(
    alloc: Global,
    digits: &str,
    length: i64,
    nodes: &[(i64, i64)],
    buffers: &[(i64, i64)],
) -> bool {
    let Some(bytes) = bytes_of(alloc, digits) else {
        return false;
    };
    match read_message(alloc, &bytes) {
        Ok(meta) => is_record(&meta, length, nodes, buffers),
        Err(_) => false,
    }
}

// The message is one of a dictionary block of two texts.
fn is_block(alloc: Global, digits: &str, want: (i64, bool)) -> bool {
    let Some(bytes) = bytes_of(alloc, digits) else {
        return false;
    };
    match read_dictionary(alloc, &bytes) {
        Ok((id, is_delta, values)) => (id, is_delta) == want
            && is_record(&values, 2, &[(2, 0)], &[(0, 0), (0, 12), (16, 2)]),
        Err(_) => false,
    }
}

// Whether it isn't read as the message of a record batch, for this reason.
fn is_no_record(alloc: Global, digits: &str, why: MetaError) -> bool {
    match bytes_of(alloc, digits) {
        Some(bytes) => read_message(alloc, &bytes).err() == Some(why),
        None => false,
    }
}

// Whether it isn't read as the message of a dictionary block, for this reason.
fn is_no_dictionary(alloc: Global, digits: &str, why: MetaError) -> bool {
    match bytes_of(alloc, digits) {
        Some(bytes) => read_dictionary(alloc, &bytes).err() == Some(why),
        None => false,
    }
}

#[test]
fn records_and_dictionaries(rt: HostRuntime) {
    assert!(rt; reads(rt.alloc(), RECORD, 5, &[(5, 1)], &[(0, 1), (8, 40)]));
    assert!(rt; reads(rt.alloc(), BARE, 0, &[], &[]));
    for (digits, want) in [
        (FIRST, (9, false)),
        (NO_DELTA, (9, false)),
        (DELTA, (-9, true)),
        (NO_ID, (0, true)),
    ] {
        assert!(rt; is_block(rt.alloc(), digits, want));
    }
}

#[test]
fn refused_messages(rt: HostRuntime) {
    for digits in [NO_HEADER, OLD, NEW, FIRST] {
        assert!(rt; is_no_record(rt.alloc(), digits, MetaError::Bad));
    }
    for digits in [NO_VALUES, RECORD] {
        assert!(rt; is_no_dictionary(rt.alloc(), digits, MetaError::Bad));
    }
    assert!(rt; is_no_record(rt.alloc(), COMPRESSED, MetaError::Compressed));
    assert!(rt; is_no_dictionary(rt.alloc(), COMPRESSED_DICTIONARY, MetaError::Compressed));
}
