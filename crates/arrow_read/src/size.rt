// The sizes that stand in a file before what they count.
ghost use Rattle.std.specs.Prelude.{◌≡◌, ◌+◌, ◌<◌, ◌≤◌, ◌^◌, length, IfSome};
ghost use Rattle.arrow_read.specs.Sizes as spec;

use byteorder::{ByteOrder, LittleEndian};

const MARK: &[u8] = &[255, 255, 255, 255];

/// The size of the footer of a file of a length, from the bytes in which it stands.
pub(crate) fn footer_size(bytes: &[u8], len: u64) -> Option<u64>
    requires whole { 4 ≤ length bytes.now }
    requires long { 18 ≤ len }
    ensures size { result ≡ spec.size_of_footer len bytes.now }
    ensures within { IfSome result (λ size. size + 18 ≤ len) }
    ensures some { IfSome result (λ size. 1 ≤ size) }
    ensures short { IfSome result (λ size. size < 2 ^ 31) }
{
    let size = LittleEndian::read_i32(bytes);
    if size < 1 {
        return None;
    }
    let size = size as u64;
    if size > len - 18 {
        return None;
    }
    Some(size)
}

/// The size of the metadata of a message, from the first eight bytes of the message.
pub(crate) fn metadata_size(bytes: &[u8], meta_len: u64) -> Option<u64>
    requires whole { length bytes.now ≡ 8 }
    requires long { 8 ≤ meta_len }
    ensures size { result ≡ spec.size_of_metadata meta_len bytes.now }
    ensures within { IfSome result (λ size. size + 8 ≤ meta_len) }
    ensures short { IfSome result (λ size. size < 2 ^ 31) }
{
    let (mark, size) = bytes.split_at(4);
    let size = LittleEndian::read_i32(size);
    if mark != MARK || size < 1 {
        return None;
    }
    let size = size as u64;
    if size > meta_len - 8 {
        return None;
    }
    Some(size)
}
