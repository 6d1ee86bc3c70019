// Bytes written out as hexadecimal digits.
ghost use Rattle.std.specs.Prelude.{◌<◌, ◌^◌, IfSome, vec_len};

use std::alloc::Global;

pub(super) fn bytes_of(alloc: Global, digits: &str) -> Option<Vec<u8>>
    ensures { IfSome result (λ bytes. vec_len bytes < 2 ^ 31) }
{
    match hex::decode(alloc, digits) {
        Ok(bytes) if bytes.len() < 1 << 31 => Some(bytes),
        _ => None,
    }
}
