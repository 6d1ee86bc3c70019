// Columns of numbers.
ghost use Rattle.std.specs.Prelude.{◌≡◌, length};

use crate::places::{are_below, first_false};
use col_fixed::{Fixed, FixedBuilder, Native, View};
use std::alloc::Global;
use std::cmp::Ordering;
use sub_types::{Bits, NoMemory};

// 0, 1, null, 3, 4, null ..
fn expected(i: usize) -> Option<i64> {
    if i % 3 == 2 {
        None
    } else {
        i64::try_from(i).ok()
    }
}

// So many of them, of those for which memory was found.
fn numbered(alloc: Global, n: usize) -> Fixed<i64> {
    let mut builder = FixedBuilder::new(alloc);
    for i in 0..n {
        let _ = builder.push(expected(i));
    }
    builder.finish()
}

// Whether the column has so many of them.
fn is_numbered(column: &Fixed<i64>, n: usize) -> bool {
    let view = column.view();
    if view.len() != n {
        return false;
    }
    for i in 0..view.len() {
        if view.value_at(i) != expected(i) {
            return false;
        }
    }
    true
}

// Whether these are the values.
fn are(view: &View<'_, i64>, list: &[Option<i64>]) -> bool {
    if view.len() != list.len() {
        return false;
    }
    for i in 0..list.len() {
        if view.value_at(i) != list[i] {
            return false;
        }
    }
    true
}

// A part, as far as it is there.
fn part_of<'a>(view: &View<'a, i64>, from: usize, to: usize) -> View<'a, i64> {
    let to = to.min(view.len());
    view.part(from.min(to), to)
}

// Whether the values at these places are those.
fn gathers(alloc: Global, view: &View<'_, i64>, at: &[u64], list: &[Option<i64>]) -> bool {
    if !are_below(at, view.len() as u64) {
        return false;
    }
    match view.gather(alloc, at) {
        Ok(picked) => are(&picked.view(), list),
        Err(_) => false,
    }
}

// Both with -1 between them.
fn joined(alloc: Global, a: &View<'_, i64>, b: &View<'_, i64>) -> Result<Fixed<i64>, NoMemory> {
    let mut builder = FixedBuilder::new(alloc);
    append_both(&mut builder, a, b)?;
    Ok(builder.finish())
}

fn append_both(
    builder: &mut FixedBuilder<i64>,
    a: &View<'_, i64>,
    b: &View<'_, i64>,
) -> Result<(), NoMemory> {
    builder.append(a)?;
    builder.push(Some(-1))?;
    builder.append(b)
}

fn joins(alloc: Global, a: &View<'_, i64>, b: &View<'_, i64>, list: &[Option<i64>]) -> bool {
    match joined(alloc, a, b) {
        Ok(both) => are(&both.view(), list),
        Err(_) => false,
    }
}

#[test]
fn past_one_and_two_words_of_bits(rt: HostRuntime) {
    for n in [0, 1, 64, 65, 130] {
        let column = numbered(rt.alloc(), n);
        assert!(rt; is_numbered(&column, n));
    }
}

// Whether the part from 62 to 67 is read, gathered, and put behind two of it.
fn is_inner(alloc: Global, inner: &View<'_, i64>) -> [bool; 4] {
    let five = [None, Some(63), Some(64), None, Some(66)];
    let picked = [Some(66), None, Some(64), Some(66)];
    let both = [
        Some(63),
        Some(64),
        Some(-1),
        None,
        Some(63),
        Some(64),
        None,
        Some(66),
    ];
    [
        are(inner, &five),
        inner.values() == [0, 63, 64, 0, 66].as_slice(),
        gathers(alloc, inner, &[4, 0, 2, 4], &picked),
        joins(alloc, &part_of(inner, 1, 3), inner, &both),
    ]
}

// Whether two parts of no values are joined.
fn joins_none(alloc: Global, part: &View<'_, i64>) -> bool {
    joins(
        alloc,
        &part_of(part, 9, 9),
        &part_of(part, 0, 0),
        &[Some(-1)],
    )
}

#[test]
fn part_gather_and_append(rt: HostRuntime) {
    let alloc = rt.alloc();
    let column = numbered(alloc, 130);
    let part = part_of(&column.view(), 61, 70);
    let seen = is_inner(alloc, &part_of(&part, 1, 6));
    assert_eq!(rt; first_false(&seen), None);
    assert!(rt; joins_none(alloc, &part));
}

// The values 10, 1000 and -1, of which only the second is there.
fn from_parts(alloc: Global) -> Result<Fixed<i32>, NoMemory> {
    let mut valid = Bits::zeros(alloc, 3)?;
    valid.put(1, true);
    Ok(Fixed::from_parts(vec![in alloc; 10, 1000, -1]?, valid))
}

fn has_zeros(alloc: Global) -> bool {
    match from_parts(alloc) {
        Ok(column) => column.values() == [0, 1000, 0].as_slice(),
        Err(_) => false,
    }
}

// Whether a number is written as these bytes.
fn is_written<T: Native, const N: usize>(number: T, bytes: &[u8; N]) -> bool
    requires { N ≡ T.SIZE }
{
    let mut into = [0; N];
    number.write_le(&mut into);
    into == *bytes
}

fn order<T: Native>(a: T, b: T) -> Ordering {
    a.order(b)
}

#[test]
fn zeros_and_little_endian_bytes(rt: HostRuntime) {
    let seen = [
        has_zeros(rt.alloc()),
        is_written(-2i16, &[0xfe, 0xff]),
        is_written(258i32, &[2, 1, 0, 0]),
        i8::read_le(&[0x80]) == -128,
        i16::read_le(&[0x34, 0x12]) == 0x1234,
        order(-1i8, 1) == Ordering::Less,
        order(i128::zero(), 0) == Ordering::Equal,
    ];
    assert_eq!(rt; first_false(&seen), None);
}
