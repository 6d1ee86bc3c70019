// Columns of texts.
use crate::places::{are_below, first_false};
use col_text::{TextBuilder, TextCol, TextView};
use std::alloc::Global;
use sub_types::NoMemory;

// no bytes, ab, null, no bytes, ab, null ..
fn expected(i: usize) -> Option<&'static [u8]> {
    match i % 3 {
        0 => Some(b""),
        1 => Some(b"ab"),
        _ => None,
    }
}

// So many of them, of those for which memory was found.
fn numbered(alloc: Global, n: usize) -> TextCol {
    let mut builder = TextBuilder::new(alloc);
    for i in 0..n {
        let _ = builder.push(expected(i));
    }
    builder.finish()
}

// These texts, of those for which memory was found.
fn column_of(alloc: Global, list: &[Option<&[u8]>]) -> TextCol {
    let mut builder = TextBuilder::new(alloc);
    for text in list {
        let _ = builder.push(*text);
    }
    builder.finish()
}

// Whether the column has so many of the first ones.
fn is_numbered(column: &TextCol, n: usize) -> bool {
    let view = column.view();
    if view.len() != n {
        return false;
    }
    for i in 0..view.len() {
        if view.value_at(i) != expected(i) {
            return false;
        }
    }
    true
}

// Whether these are the values.
fn are(view: &TextView<'_>, list: &[Option<&[u8]>]) -> bool {
    if view.len() != list.len() {
        return false;
    }
    for i in 0..list.len() {
        if view.value_at(i) != list[i] {
            return false;
        }
    }
    true
}

// Whether these are the bytes, and the places where each value begins and the last one ends.
fn has_buffers(view: &TextView<'_>, bytes: &[u8], offsets: &[usize]) -> bool {
    if view.bytes() != bytes || offsets.len() != view.len().saturating_add(1) {
        return false;
    }
    for i in 0..offsets.len() {
        if view.offset(i) != offsets[i] {
            return false;
        }
    }
    true
}

// A part, as far as it is there.
fn part_of<'a>(view: &TextView<'a>, from: usize, to: usize) -> TextView<'a> {
    let to = to.min(view.len());
    view.part(from.min(to), to)
}

// Whether the values at these places are those.
fn gathers(alloc: Global, view: &TextView<'_>, at: &[u64], list: &[Option<&[u8]>]) -> bool {
    if !are_below(at, view.len() as u64) {
        return false;
    }
    match view.gather(alloc, at) {
        Ok(picked) => are(&picked.view(), list),
        Err(_) => false,
    }
}

// The same where there may be no value at a place.
fn gathers_or_null(alloc: Global, view: &TextView<'_>, at: &[u64], list: &[Option<&[u8]>]) -> bool {
    match view.gather_or_null(alloc, at) {
        Ok(picked) => are(&picked.view(), list),
        Err(_) => false,
    }
}

// Whether the value, once for each of these, is these.
fn repeats(alloc: Global, value: Option<&[u8]>, list: &[Option<&[u8]>]) -> bool {
    match TextCol::constant(alloc, value, list.len()) {
        Ok(column) => are(&column.view(), list),
        Err(_) => false,
    }
}

// Whether a builder with room for one text grows past it.
fn grows(alloc: Global, list: &[Option<&[u8]>]) -> bool {
    let Ok(mut builder) = TextBuilder::with_capacity(alloc, 1, 2) else {
        return false;
    };
    for text in list {
        let _ = builder.push(*text);
    }
    are(&builder.finish().view(), list)
}

// Both with an exclamation mark between them.
fn joined(alloc: Global, a: &TextView<'_>, b: &TextView<'_>) -> Result<TextCol, NoMemory> {
    let mut builder = TextBuilder::new(alloc);
    append_both(&mut builder, a, b)?;
    Ok(builder.finish())
}

fn append_both(
    builder: &mut TextBuilder,
    a: &TextView<'_>,
    b: &TextView<'_>,
) -> Result<(), NoMemory> {
    builder.append(a)?;
    builder.push(Some(b"!"))?;
    builder.append(b)
}

// Whether the texts of both have these bytes, and begin and end at these places.
fn joins(
    alloc: Global,
    a: &TextView<'_>,
    b: &TextView<'_>,
    bytes: &[u8],
    offsets: &[usize],
) -> bool {
    match joined(alloc, a, b) {
        Ok(both) => has_buffers(&both.view(), bytes, offsets),
        Err(_) => false,
    }
}

#[test]
fn past_one_and_two_words_of_bits(rt: HostRuntime) {
    for n in [0, 1, 64, 65, 130] {
        let column = numbered(rt.alloc(), n);
        assert!(rt; is_numbered(&column, n));
    }
}

const ONE: Option<&[u8]> = Some(b"one");

const THREE: Option<&[u8]> = Some(b"three");

const EMPTY: Option<&[u8]> = Some(b"");

const LIST: [Option<&[u8]>; 5] = [ONE, None, THREE, EMPTY, Some(b"\xff\xff")];

// Whether a null, a text and no bytes are read, gathered, and put before the end of the column.
fn is_part(alloc: Global, part: &TextView<'_>, end: &TextView<'_>) -> bool {
    are(part, &[None, THREE, EMPTY])
        && has_buffers(part, b"three", &[0, 0, 5, 5])
        && gathers(alloc, part, &[1, 0, 1], &[THREE, None, THREE])
        && joins(alloc, part, end, b"three!\xff\xff", &[0, 0, 5, 5, 6, 8])
}

fn has_part(alloc: Global, whole: &TextView<'_>) -> bool {
    let part = part_of(&part_of(whole, 1, 5), 0, 3);
    is_part(alloc, &part, &part_of(whole, 4, 5))
}

#[test]
fn part_gather_and_append(rt: HostRuntime) {
    let alloc = rt.alloc();
    let column = column_of(alloc, &LIST);
    let whole = column.view();
    let seen = [
        are(&whole, &LIST),
        has_buffers(&whole, b"onethree\xff\xff", &[0, 3, 3, 8, 8, 10]),
        has_part(alloc, &whole),
    ];
    assert_eq!(rt; first_false(&seen), None);
}

// Whether of a text, a null and no bytes these are gathered, also from the last two alone.
fn gathers_with_nulls(alloc: Global, view: &TextView<'_>) -> bool {
    let part = part_of(view, 1, 3);
    gathers_or_null(alloc, view, &[2, 3, 0, 1], &[EMPTY, None, ONE, None])
        && gathers_or_null(alloc, view, &[0, 0], &[ONE, ONE])
        && gathers_or_null(alloc, &part, &[1, 2, u64::MAX], &[EMPTY, None, None])
}

#[test]
fn no_place_one_value_and_room(rt: HostRuntime) {
    let alloc = rt.alloc();
    let column = column_of(alloc, &[ONE, None, EMPTY]);
    let seen = [
        gathers_with_nulls(alloc, &column.view()),
        repeats(alloc, ONE, &[ONE, ONE, ONE]),
        repeats(alloc, None, &[None, None]),
        grows(alloc, &[ONE, None, ONE, EMPTY]),
    ];
    assert_eq!(rt; first_false(&seen), None);
}
