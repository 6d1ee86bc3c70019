// The digests of keys.
ghost use Rattle.std.specs.Prelude.{◌≡◌};
ghost use Rattle.plan_keys.specs.Digests as spec;

/// An odd number with as many ones as zeros, about.
const FACTOR: u128 = 0x9e37_79b9_7f4a_7c15_f39c_c060_5ced_c835;

/// A number that tells most keys apart. Keys that differ in the last number alone have digests that lie together.
#[tactic(auto, unfolding(crate::specs::Digests::digest))]
pub(crate) fn digest_of(key: &[i128]) -> u64
    ensures { result ≡ spec.digest key.now }
{
    let mut digest = 0;
    for number in key {
        digest = with_number(digest, *number);
    }
    joined(digest)
}

/// The digest of a key with one number more.
fn with_number(digest: u128, number: i128) -> u128
    ensures { result ≡ spec.with_number digest number }
{
    digest
        .wrapping_mul(FACTOR)
        .wrapping_add(number.cast_unsigned())
}

/// The two halves as one number.
fn joined(digest: u128) -> u64
    ensures { result ≡ spec.joined digest }
{
    (digest & 0xFFFF_FFFF_FFFF_FFFF) as u64 ^ (digest >> 64) as u64
}
