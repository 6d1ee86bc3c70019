//! `like`: a pattern of characters and wildcards against a text, over the bytes of both.
//!
//! The signs `%` cut a pattern into segments. Each one but the last is looked for at the leftmost place that is left: what
//! follows a `%` then has the most text to stand in, so that no segment is ever tried again.
ghost use Rattle.std.specs.Prelude.{◌≡◌, ◌<◌, [], length, IfSome, IsUtf8, MatchOption, None, chars, option_copied, option_map};
ghost use Rattle.std.specs.Str.{continuation_len};
ghost use Rattle.memchr.specs.Find.{IsFirstByte, is_byte};
ghost use Rattle.plan_denote.specs.Texts as texts;
ghost use Rattle.text_match.specs.Segments as segments;

use memchr::{memchr, memmem};

/// Any run of characters.
const PERCENT: u8 = b'%';

/// Any one character.
const UNDERSCORE: u8 = b'_';

/// Whether `text` is like `pattern`: `%` stands for any run of characters, `_` for any one, each other character for
/// itself. However many `%` there are, no place of the text is tried for more than one segment: where that has no `_`
/// by a search for its bytes, in linear time, and else in at most as many steps as it has bytes.
pub fn like(text: &[u8], pattern: &[u8]) -> bool
    requires text { IsUtf8 text.now }
    requires pattern { IsUtf8 pattern.now }
    ensures { result ≡ texts.like text.now pattern.now }
{
    let Some((segment, later)) = split_at_percent(pattern) else {
        return is_segment(text, pattern);
    };
    let Some(rest) = after_segment(text, segment) else {
        return false;
    };
    ends_like(rest, later)
}

/// Whether some end of `text` is like `pattern`, as what follows a `%` has to be.
fn ends_like(text: &[u8], pattern: &[u8]) -> bool
    requires text { IsUtf8 text.now }
    requires pattern { IsUtf8 pattern.now }
    ensures { result ≡ texts.some_end (texts.is_like (chars pattern.now)) (chars text.now) }
{
    let mut rest = text;
    let mut signs = pattern;
    while let Some((segment, later)) = split_at_percent(signs) {
        let Some(after) = after_leftmost(rest, segment) else {
            return false;
        };
        rest = after;
        signs = later;
    }
    ends_with_segment(rest, signs)
}

/// The segment before the first `%`, and what follows that sign.
fn split_at_percent(pattern: &[u8]) -> Option<(&[u8], &[u8])>
    requires { IsUtf8 pattern.now }
    ensures { MatchOption result (segments.Lacks PERCENT (chars pattern.now)) (λ parts. segments.SplitsAtPercent pattern.now parts.0.now parts.1.now) }
{
    let percent = memchr(PERCENT, pattern)?;
    Some((&pattern[..percent], &pattern[percent + 1..]))
}

/// Whether `segment` stands for some end of `text`.
fn ends_with_segment(text: &[u8], segment: &[u8]) -> bool
    requires text { IsUtf8 text.now }
    requires segment { IsUtf8 segment.now }
    ensures { result ≡ segments.ends_with_segment (chars segment.now) (chars text.now) }
{
    if memchr(UNDERSCORE, segment).is_none() {
        text.ends_with(segment)
    } else {
        ends_with_wildcards(text, segment)
    }
}

/// The same at any segment.
fn ends_with_wildcards(text: &[u8], segment: &[u8]) -> bool
    requires text { IsUtf8 text.now }
    requires segment { IsUtf8 segment.now }
    ensures { result ≡ segments.ends_with_segment (chars segment.now) (chars text.now) }
{
    match end_as_long(text, segment) {
        Some(end) => is_segment(end, segment),
        None => false,
    }
}

/// The end of `text` that has as many characters as `segment`.
fn end_as_long<'t>(text: &'t [u8], segment: &[u8]) -> Option<&'t [u8]>
    requires text { IsUtf8 text.now }
    requires segment { IsUtf8 segment.now }
    ensures { MatchOption result (length (chars text.now) < length (chars segment.now)) (λ end. segments.IsEndAsLong text.now segment.now end.now) }
{
    let mut start = text.len();
    let mut signs = segment;
    while let Some(later) = after_character(signs) {
        start = last_character(&text[..start])?;
        signs = later;
    }
    Some(&text[start..])
}

/// Where the last character of `text` begins.
fn last_character(text: &[u8]) -> Option<usize>
    requires { IsUtf8 text.now }
    ensures { MatchOption result (chars text.now ≡ []) (segments.BeginsLast text.now) }
{
    let mut start = text.len();
    while start > 0 {
        start -= 1;
        if begins_character(text[start]) {
            return Some(start);
        }
    }
    None
}

/// What follows the leftmost place of `text` at which `segment` stands for its characters.
fn after_leftmost<'t>(text: &'t [u8], segment: &[u8]) -> Option<&'t [u8]>
    requires text { IsUtf8 text.now }
    requires segment { IsUtf8 segment.now }
    ensures value { option_map chars (option_copied result) ≡ segments.after_leftmost (chars segment.now) (chars text.now) }
    ensures utf8 { IfSome result (λ rest. IsUtf8 rest.now) }
{
    if memchr(UNDERSCORE, segment).is_none() {
        after_literal(text, segment)
    } else {
        after_wildcards(text, segment)
    }
}

/// The same at a segment without `_`.
fn after_literal<'t>(text: &'t [u8], literal: &[u8]) -> Option<&'t [u8]>
    requires text { IsUtf8 text.now }
    requires literal { IsUtf8 literal.now }
    requires no_wildcard { IsFirstByte (is_byte UNDERSCORE) literal.now None }
    ensures value { option_map chars (option_copied result) ≡ segments.after_leftmost (chars literal.now) (chars text.now) }
    ensures utf8 { IfSome result (λ rest. IsUtf8 rest.now) }
{
    let start = memmem::find(text, literal)?;
    Some(&text[start + literal.len()..])
}

/// The same at any segment.
fn after_wildcards<'t>(text: &'t [u8], segment: &[u8]) -> Option<&'t [u8]>
    requires text { IsUtf8 text.now }
    requires segment { IsUtf8 segment.now }
    ensures value { option_map chars (option_copied result) ≡ segments.after_leftmost (chars segment.now) (chars text.now) }
    ensures utf8 { IfSome result (λ rest. IsUtf8 rest.now) }
{
    let mut start = text;
    loop {
        if let Some(rest) = after_segment(start, segment) {
            return Some(rest);
        }
        start = after_character(start)?;
    }
}

/// Whether `segment` stands for the whole of `text`.
fn is_segment(text: &[u8], segment: &[u8]) -> bool
    requires text { IsUtf8 text.now }
    requires segment { IsUtf8 segment.now }
    ensures { result ≡ segments.is_segment (chars segment.now) (chars text.now) }
{
    match after_segment(text, segment) {
        Some(rest) => rest.is_empty(),
        None => false,
    }
}

/// What follows `segment` in `text`, if it stands for the characters that `text` begins with.
fn after_segment<'t>(text: &'t [u8], segment: &[u8]) -> Option<&'t [u8]>
    requires text { IsUtf8 text.now }
    requires segment { IsUtf8 segment.now }
    ensures value { option_map chars (option_copied result) ≡ segments.after_segment (chars segment.now) (chars text.now) }
    ensures utf8 { IfSome result (λ rest. IsUtf8 rest.now) }
{
    after_signs(text, segment)
}

/// The same by bytes. One that isn't `_` stands for itself: characters are the same if their bytes are.
fn after_signs<'t>(text: &'t [u8], signs: &[u8]) -> Option<&'t [u8]>
    ensures { option_copied result ≡ segments.after_signs signs.now text.now }
{
    let mut rest = text;
    for sign in signs {
        rest = if *sign == UNDERSCORE {
            after_character(rest)?
        } else {
            after_byte(rest, *sign)?
        };
    }
    Some(rest)
}

/// What follows the first character of `text`.
fn after_character(text: &[u8]) -> Option<&[u8]>
    ensures { option_copied result ≡ segments.after_character text.now }
{
    let (first, rest) = text.split_first()?;
    rest.get(continuation_count(*first)..)
}

/// What follows the byte, if `text` begins with it.
fn after_byte(text: &[u8], byte: u8) -> Option<&[u8]>
    ensures { option_copied result ≡ segments.after_byte byte text.now }
{
    match text.split_first() {
        Some((first, rest)) if *first == byte => Some(rest),
        _ => None,
    }
}

/// Whether a character begins with this byte.
fn begins_character(byte: u8) -> bool
    ensures { result ≡ segments.begins_character byte }
{
    !matches!(byte, 128..192)
}

/// How many bytes of a character follow its first.
fn continuation_count(first: u8) -> usize
    ensures { result ≡ continuation_len first }
{
    match first {
        0..128 => 0,
        128..224 => 1,
        224..240 => 2,
        _ => 3,
    }
}
