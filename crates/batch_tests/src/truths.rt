// Columns of truth values.
use crate::places::{are_below, first_false};
use col_fixed::{BoolBuilder, BoolCol, BoolView};
use std::alloc::Global;
use sub_types::NoMemory;

// true, null, false, true, false, null, true ..
fn expected(i: usize) -> Option<bool> {
    if i % 4 == 1 { None } else { Some(i % 3 == 0) }
}

// So many of them, of those for which memory was found.
fn numbered(alloc: Global, n: usize) -> BoolCol {
    let mut builder = BoolBuilder::new(alloc);
    for i in 0..n {
        let _ = builder.push(expected(i));
    }
    builder.finish()
}

// Whether the column has so many of them.
fn is_numbered(column: &BoolCol, n: usize) -> bool {
    let view = column.view();
    if view.len() != n {
        return false;
    }
    for i in 0..view.len() {
        if view.value_at(i) != expected(i) {
            return false;
        }
    }
    true
}

// Whether these are the values.
fn are(view: &BoolView<'_>, list: &[Option<bool>]) -> bool {
    if view.len() != list.len() {
        return false;
    }
    for i in 0..list.len() {
        if view.value_at(i) != list[i] {
            return false;
        }
    }
    true
}

// A part, as far as it is there.
fn part_of<'a>(view: &BoolView<'a>, from: usize, to: usize) -> BoolView<'a> {
    let to = to.min(view.len());
    view.part(from.min(to), to)
}

// Whether the values at these places are those.
fn gathers(alloc: Global, view: &BoolView<'_>, at: &[u64], list: &[Option<bool>]) -> bool {
    if !are_below(at, view.len() as u64) {
        return false;
    }
    match view.gather(alloc, at) {
        Ok(picked) => are(&picked.view(), list),
        Err(_) => false,
    }
}

// Both with a null between them.
fn joined(alloc: Global, a: &BoolView<'_>, b: &BoolView<'_>) -> Result<BoolCol, NoMemory> {
    let mut builder = BoolBuilder::new(alloc);
    append_both(&mut builder, a, b)?;
    Ok(builder.finish())
}

fn append_both(
    builder: &mut BoolBuilder,
    a: &BoolView<'_>,
    b: &BoolView<'_>,
) -> Result<(), NoMemory> {
    builder.append(a)?;
    builder.push(None)?;
    builder.append(b)
}

fn joins(alloc: Global, a: &BoolView<'_>, b: &BoolView<'_>, list: &[Option<bool>]) -> bool {
    match joined(alloc, a, b) {
        Ok(both) => are(&both.view(), list),
        Err(_) => false,
    }
}

#[test]
fn past_one_and_two_words_of_bits(rt: HostRuntime) {
    for n in [0, 1, 64, 65, 130] {
        let column = numbered(rt.alloc(), n);
        assert!(rt; is_numbered(&column, n));
    }
}

#[test]
fn part_gather_and_append(rt: HostRuntime) {
    let alloc = rt.alloc();
    let column = numbered(alloc, 130);
    let part = part_of(&column.view(), 63, 67);
    let (yes, no) = (Some(true), Some(false));
    let seen = [
        are(&part, &[yes, no, None, yes]),
        gathers(alloc, &part, &[2, 0, 2], &[None, yes, None]),
        joins(
            alloc,
            &part,
            &part_of(&part, 0, 2),
            &[yes, no, None, yes, None, yes, no],
        ),
    ];
    assert_eq!(rt; first_false(&seen), None);
}
