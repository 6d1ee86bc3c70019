// Which reads a file and its block take.
use super::answers::{failing_reader, has_numbers, read, reader_of};
use std::alloc::Global;
use test_bytes::THREE_ROWS_FILE;

// Whether the file is read by five reads, and its block by one more, of its body.
fn reads_the_body(alloc: Global) -> bool {
    let Some(mut reader) = reader_of(alloc, &THREE_ROWS_FILE) else {
        return false;
    };
    let batch = read(alloc, &mut reader, 0, 0);
    let asked = [
        (0, 6),
        (536, 10),
        (344, 192),
        (168, 8),
        (176, 136),
        (312, 24),
    ];
    has_numbers(&batch, &[1, 2, -1]) && reader.reads() == asked.as_slice()
}

// Whether a failed read of the body gives no batch.
fn fails_to_read_the_body(alloc: Global) -> bool {
    match failing_reader(alloc, &THREE_ROWS_FILE, 5) {
        Some(mut reader) => read(alloc, &mut reader, 0, 0).is_none(),
        None => false,
    }
}

#[test]
fn three_rows(rt: HostRuntime) {
    assert!(rt; reads_the_body(rt.alloc()));
    assert!(rt; fails_to_read_the_body(rt.alloc()));
}
