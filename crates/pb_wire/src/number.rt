// Base 128 varints (Protocol Buffers encoding, "Base 128 Varints").
ghost use Rattle.std.specs.Prelude.{◌≡◌, ◌<◌, ◌≤◌, length, IfSome};
ghost use Rattle.pb_wire.specs.Varint.{varint_of};

/// The longest varint, in bytes: ten groups of seven bits hold 64.
const LONGEST: usize = 10;

/// The value and the length in bytes of the varint that begins the bytes, or `None` where none does.
#[inline(always)]
#[tactic(auto, unfolding(crate::specs::Varint::varint_of))]
pub fn varint(bytes: &[u8]) -> Option<(u64, usize)>
    ensures value { result ≡ varint_of bytes.now }
    ensures len { IfSome result (λ found. (0 < found.1) × (found.1 ≤ length bytes.now)) }
{
    // Most are one or two bytes long.
    match bytes {
        [] => None,
        [only] => {
            if *only < 128 {
                Some((u64::from(*only), 1))
            } else {
                None
            }
        }
        [first, second, ..] => {
            if *first < 128 {
                Some((u64::from(*first), 1))
            } else if *second < 128 {
                Some((u64::from(*first - 128) + u64::from(*second) * 128, 2))
            } else {
                long_varint(bytes)
            }
        }
    }
}

// The varint that begins the bytes, byte by byte.
#[cold]
#[inline(never)]
fn long_varint(bytes: &[u8]) -> Option<(u64, usize)>
    ensures value { result ≡ varint_of bytes.now }
    ensures len { IfSome result (λ found. (0 < found.1) × (found.1 ≤ length bytes.now)) }
{
    let mut value = 0u64;
    let mut scale = 1u64;
    for (i, byte) in bytes.iter().enumerate() {
        if i == LONGEST - 1 {
            return if *byte < 2 {
                Some((value + u64::from(*byte) * scale, LONGEST))
            } else {
                None
            };
        }
        if *byte < 128 {
            return Some((value + u64::from(*byte) * scale, i + 1));
        }
        value += u64::from(*byte - 128) * scale;
        scale *= 128;
    }
    None
}
