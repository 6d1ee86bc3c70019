// Parts of texts, by characters.
ghost use Rattle.std.specs.Prelude.{◌≡◌, ◌≤◌, chars, drop, take, length, encode_utf8_all};

/// What stands behind so many characters of a text.
pub(crate) fn after_chars(text: &str, count: u64) -> &str
    ensures { result.now ≡ encode_utf8_all (drop count (chars text.now)) }
{
    let mut rest = text.chars();
    for _passed in 0..count {
        let Some(_) = rest.next() else {
            return "";
        };
    }
    rest.as_str()
}

/// The first characters of a text: so many, or all.
pub(crate) fn first_chars(text: &str, count: u64) -> &[u8]
    ensures { result.now ≡ encode_utf8_all (take count (chars text.now)) }
{
    let bytes = text.as_bytes();
    &bytes[..bytes.len() - after_chars(text, count).len()]
}

pub(crate) fn count_chars(text: &str) -> usize
    ensures count { result ≡ length (chars text.now) }
    ensures bound { result ≤ length text.now }
{
    text.chars().count()
}
