// What is written, against bytes that were worked out by hand.
ghost use Rattle.std.specs.Prelude.{◌<◌, length};

use super::objects::{one_text, widths};
use fb_bytes::fb_write;
use std::alloc::Global;
use sub_types::NoMemory;

// A vtable of seven slots, the table at 20, and in it 8, 8, 4, 2, 1 and 1 bytes.
const WIDTHS: [u8; 56] = [
    0x1C, 0x00, 0x00, 0x00, 0x00, 0x00, 0x00, 0x00, //
    0x12, 0x00, 0x1C, 0x00, 0x1A, 0x00, 0x04, 0x00, //
    0x18, 0x00, 0x14, 0x00, 0x00, 0x00, 0x1B, 0x00, //
    0x0C, 0x00, 0x00, 0x00, 0x14, 0x00, 0x00, 0x00, //
    0x22, 0x22, 0x22, 0x22, 0x22, 0x22, 0x22, 0x22, //
    0x66, 0x00, 0x00, 0x00, 0x00, 0x00, 0x00, 0x00, //
    0x44, 0x44, 0x44, 0x44, 0x33, 0x33, 0x11, 0x55, //
];

// What stands before the text in the buffer of a table with one text.
const BEFORE_TEXT: [u8; 32] = [
    0x14, 0x00, 0x00, 0x00, 0x00, 0x00, 0x00, 0x00, //
    0x06, 0x00, 0x08, 0x00, 0x04, 0x00, 0x00, 0x00, //
    0x00, 0x00, 0x00, 0x00, 0x0C, 0x00, 0x00, 0x00, //
    0x08, 0x00, 0x00, 0x00, 0x00, 0x00, 0x00, 0x00, //
];

// The buffer of a table with one text.
fn text_buffer(alloc: Global, text: &[u8]) -> Result<Vec<u8>, NoMemory>
    requires { length text.now < 64 }
{
    let root = one_text(alloc, text)?;
    fb_write(alloc, &root)
}

// The buffer of a table with numbers of all widths.
fn widths_buffer(alloc: Global) -> Result<Vec<u8>, NoMemory> {
    let root = widths(alloc)?;
    fb_write(alloc, &root)
}

fn has_widths(alloc: Global) -> bool {
    match widths_buffer(alloc) {
        Ok(bytes) => bytes.as_slice() == WIDTHS.as_slice(),
        Err(_) => false,
    }
}

// Whether a short text is laid out in so many bytes, filled up with zeros.
fn is_laid(alloc: Global, text: &[u8], size: usize) -> bool {
    if text.len() >= 64 {
        return false;
    }
    match text_buffer(alloc, text) {
        Ok(bytes) => is_around(&bytes, text, size),
        Err(_) => false,
    }
}

// Whether the text stands behind what is before it and its length, and only zeros behind it.
fn is_around(bytes: &[u8], text: &[u8], size: usize) -> bool {
    let Some(laid) = bytes.strip_prefix(&BEFORE_TEXT) else {
        return false;
    };
    let [length, 0, 0, 0, rest @ ..] = laid else {
        return false;
    };
    let Some(filled) = rest.strip_prefix(text) else {
        return false;
    };
    laid.len() == size && usize::from(*length) == text.len() && filled.iter().all(|b| *b == 0)
}

#[test]
fn numbers_by_width_and_texts_of_every_length_modulo_8(rt: HostRuntime) {
    assert!(rt; has_widths(rt.alloc()));
    let texts: [(&[u8], usize); 9] = [
        (b"", 8),
        (b"a", 8),
        (b"ab", 8),
        (b"abc", 8),
        (b"abcd", 16),
        (b"abcde", 16),
        (b"abcdef", 16),
        (b"abcdefg", 16),
        (b"abcdefgh", 16),
    ];
    for (text, size) in texts {
        assert!(rt; is_laid(rt.alloc(), text, size));
    }
}
