//! Whether a text begins with another, ends with it or contains it, byte for byte.
ghost use Rattle.std.specs.Prelude.{◌≡◌};
ghost use Rattle.plan_denote.specs.Texts as texts;

use memchr::memmem;

/// Whether `text` begins with `pattern`. It reads no more bytes than `pattern` has.
pub fn starts_with(text: &[u8], pattern: &[u8]) -> bool
    ensures { result ≡ texts.begins text.now pattern.now }
{
    text.starts_with(pattern)
}

/// Whether `text` ends with `pattern`. It reads no more bytes than `pattern` has.
pub fn ends_with(text: &[u8], pattern: &[u8]) -> bool
    ensures { result ≡ texts.ends text.now pattern.now }
{
    text.ends_with(pattern)
}

/// Whether `pattern` stands somewhere in `text`. It takes time linear in the two.
pub fn contains(text: &[u8], pattern: &[u8]) -> bool
    ensures { result ≡ texts.contains text.now pattern.now }
{
    memmem::find(text, pattern).is_some()
}
