// Kernels on columns of numbers.
use col_fixed::{BoolCol, Fixed, FixedBuilder, Native, View};
use kernels::{
    ArithOp, CompareOp, Stop, WideSum, arith, arith_constant, arith_from, arith_with, compare,
    compare_constant, compare_from, compare_with, sum,
};
use plan_typed::Overflow;
use std::alloc::Global;
use std::cmp::Ordering;
use sub_types::FaultKind;

const COMPARISONS: [CompareOp; 6] = [
    CompareOp::Eq,
    CompareOp::Ne,
    CompareOp::Lt,
    CompareOp::Le,
    CompareOp::Gt,
    CompareOp::Ge,
];

// Small numbers in turn, both ends of the type among them, and nulls if they are wanted.
fn value<T: Native>(i: usize, nulls: bool, seed: usize) -> Option<T> {
    if nulls && (i % 5 + seed % 3) % 3 == 0 {
        return None;
    }
    let place = (i % 11 * 7 + seed % 13) % 13;
    let number = if place == 11 {
        i128::MIN
    } else if place == 12 {
        i128::MAX
    } else {
        place as i128 - 5
    };
    Some(T::wrapped(number))
}

// So many of them, of those for which memory was found.
fn column<T: Native>(alloc: Global, n: usize, nulls: bool, seed: usize) -> Fixed<T> {
    let mut builder = FixedBuilder::new(alloc);
    for i in 0..n {
        let _ = builder.push(value(i, nulls, seed));
    }
    builder.finish()
}

// A part, as far as it is there.
fn part_of<'a, T: Native>(view: &View<'a, T>, from: usize, len: usize) -> View<'a, T> {
    let from = from.min(view.len());
    view.part(from, from + len.min(view.len() - from))
}

fn holds(op: CompareOp, order: Ordering) -> bool {
    match op {
        CompareOp::Eq => order == Ordering::Equal,
        CompareOp::Ne => order != Ordering::Equal,
        CompareOp::Lt => order == Ordering::Less,
        CompareOp::Le => order != Ordering::Greater,
        CompareOp::Gt => order == Ordering::Greater,
        CompareOp::Ge => order != Ordering::Less,
    }
}

fn expected<T: Native>(op: CompareOp, x: Option<T>, y: Option<T>) -> Option<bool> {
    match (x, y) {
        (Some(x), Some(y)) => Some(holds(op, x.order(y))),
        _ => None,
    }
}

// Whether the column has the comparisons of two columns.
fn are<T: Native>(column: &BoolCol, op: CompareOp, a: &View<'_, T>, b: &View<'_, T>) -> bool {
    if column.len() != a.len() || b.len() != a.len() {
        return false;
    }
    for i in 0..a.len() {
        if column.value_at(i) != expected(op, a.value_at(i), b.value_at(i)) {
            return false;
        }
    }
    true
}

// The same of a column with a constant or null.
fn are_with<T: Native>(
    column: &BoolCol,
    op: CompareOp,
    a: &View<'_, T>,
    constant: Option<T>,
) -> bool {
    if column.len() != a.len() {
        return false;
    }
    for i in 0..a.len() {
        if column.value_at(i) != expected(op, a.value_at(i), constant) {
            return false;
        }
    }
    true
}

// The same of a constant or null with a column.
fn are_from<T: Native>(
    column: &BoolCol,
    op: CompareOp,
    constant: Option<T>,
    a: &View<'_, T>,
) -> bool {
    if column.len() != a.len() {
        return false;
    }
    for i in 0..a.len() {
        if column.value_at(i) != expected(op, constant, a.value_at(i)) {
            return false;
        }
    }
    true
}

fn compares<T: Native>(alloc: Global, op: CompareOp, a: &View<'_, T>, b: &View<'_, T>) -> bool {
    let left = part_of(a, 0, a.len());
    let right = part_of(b, 0, b.len());
    if left.len() != right.len() {
        return false;
    }
    match compare(alloc, op, left, right) {
        Ok(column) => are(&column, op, a, b),
        Err(_) => false,
    }
}

fn compares_constant<T: Native>(
    alloc: Global,
    op: CompareOp,
    a: &View<'_, T>,
    constant: T,
) -> bool {
    match compare_constant(alloc, op, part_of(a, 0, a.len()), constant) {
        Ok(column) => are_with(&column, op, a, Some(constant)),
        Err(_) => false,
    }
}

// Comparisons with a constant or null, on either side.
fn compares_either<T: Native>(
    alloc: Global,
    op: CompareOp,
    a: &View<'_, T>,
    constant: Option<T>,
) -> bool {
    compares_with(alloc, op, a, constant) && compares_from(alloc, op, constant, a)
}

fn compares_with<T: Native>(
    alloc: Global,
    op: CompareOp,
    a: &View<'_, T>,
    constant: Option<T>,
) -> bool {
    match compare_with(alloc, op, part_of(a, 0, a.len()), constant) {
        Ok(column) => are_with(&column, op, a, constant),
        Err(_) => false,
    }
}

fn compares_from<T: Native>(
    alloc: Global,
    op: CompareOp,
    constant: Option<T>,
    a: &View<'_, T>,
) -> bool {
    match compare_from(alloc, op, constant, part_of(a, 0, a.len())) {
        Ok(column) => are_from(&column, op, constant, a),
        Err(_) => false,
    }
}

// Whether each of these columns, constants and nulls are compared right.
fn compares_each<T: Native>(
    alloc: Global,
    op: CompareOp,
    a: &View<'_, T>,
    b: &View<'_, T>,
) -> bool {
    compares(alloc, op, a, b)
        && compares_constant(alloc, op, a, T::wrapped(2))
        && compares_either(alloc, op, a, Some(T::wrapped(2)))
        && compares_either(alloc, op, a, None)
}

fn compares_all<T: Native>(alloc: Global, a: &View<'_, T>, b: &View<'_, T>) -> bool {
    for op in COMPARISONS {
        if !compares_each(alloc, op, a, b) {
            return false;
        }
    }
    true
}

// The first length at which a comparison of parts at these offsets is wrong.
fn wrong_length<T: Native>(alloc: Global, nulls: bool, from: usize, other: usize) -> Option<usize> {
    let a = column::<T>(alloc, 150, nulls, from);
    let b = column::<T>(alloc, 150, nulls, other);
    for len in 0..131 {
        let left = part_of(&a.view(), from, len);
        let right = part_of(&b.view(), other, len);
        if !compares_all(alloc, &left, &right) {
            return Some(len);
        }
    }
    None
}

// The first offset at which a length is wrong.
fn wrong_offset<T: Native>(alloc: Global) -> Option<usize> {
    for from in 0..10 {
        let other = (from * 3 + 1) % 10;
        if wrong_length::<T>(alloc, false, from, other).is_some()
            || wrong_length::<T>(alloc, true, from, other).is_some()
        {
            return Some(from);
        }
    }
    None
}

#[test]
fn comparisons_of_each_length_at_each_offset(rt: HostRuntime) {
    assert_eq!(rt; wrong_offset::<i64>(rt.alloc()), None);
}

#[test]
fn comparisons_of_each_width(rt: HostRuntime) {
    let alloc = rt.alloc();
    assert_eq!(rt; wrong_length::<i8>(alloc, true, 3, 5), None);
    assert_eq!(rt; wrong_length::<i16>(alloc, true, 3, 5), None);
    assert_eq!(rt; wrong_length::<i32>(alloc, true, 3, 5), None);
    assert_eq!(rt; wrong_length::<i128>(alloc, true, 3, 5), None);
}

// The total by splitting each number at 10 to the 19.
fn is_sum<T: Native>(total: WideSum, view: &View<'_, T>) -> bool {
    let mut quotient: i128 = 0;
    let mut remainder: i128 = 0;
    for i in 0..view.len() {
        if let Some(x) = view.value_at(i) {
            quotient = quotient.wrapping_add(x.wide().div_euclid(10_000_000_000_000_000_000));
            remainder = remainder.wrapping_add(x.wide().rem_euclid(10_000_000_000_000_000_000));
        }
    }
    let carried = quotient.wrapping_add(remainder.div_euclid(10_000_000_000_000_000_000));
    total.quotient == carried && total.remainder == remainder.rem_euclid(10_000_000_000_000_000_000)
}

fn sums<T: Native>(alloc: Global, nulls: bool) -> bool {
    let a = column::<T>(alloc, 150, nulls, 1);
    for len in 0..131 {
        let part = part_of(&a.view(), len % 10, len);
        let same = part_of(&a.view(), len % 10, len);
        if same.len() >= 0x8000_0000 || !is_sum(sum(same), &part) {
            return false;
        }
    }
    true
}

#[test]
fn exact_sums_of_each_length(rt: HostRuntime) {
    let alloc = rt.alloc();
    assert!(rt; sums::<i64>(alloc, false) && sums::<i64>(alloc, true));
    assert!(rt; sums::<i8>(alloc, true));
    assert!(rt; sums::<i128>(alloc, false) && sums::<i128>(alloc, true));
}

// The exact result in 128 bits, where these hold it.
fn exact(op: ArithOp, x: i128, y: i128) -> Option<i128> {
    match op {
        ArithOp::Add => x.checked_add(y),
        ArithOp::Subtract => x.checked_sub(y),
        ArithOp::Multiply => x.checked_mul(y),
        ArithOp::Divide => x.checked_div(y),
        ArithOp::Modulus => x.checked_rem(y),
    }
}

// What two numbers of at most 64 bits give.
fn result(op: ArithOp, mode: Overflow, bits: u32, x: i128, y: i128) -> Result<i128, FaultKind> {
    let Some(n) = exact(op, x, y) else {
        return Err(FaultKind::DivideByZero);
    };
    let half = 1i128.wrapping_shl(bits.wrapping_sub(1));
    if n >= half.wrapping_neg() && n < half {
        return Ok(n);
    }
    match mode {
        Overflow::Error => Err(FaultKind::Overflow),
        Overflow::Saturate if n < 0 => Ok(half.wrapping_neg()),
        Overflow::Saturate => Ok(half.wrapping_sub(1)),
        Overflow::Silent => {
            let size = half.wrapping_mul(2);
            let rest = n.checked_rem_euclid(size).unwrap_or(0);
            Ok(if rest < half {
                rest
            } else {
                rest.wrapping_sub(size)
            })
        }
    }
}

// Whether a column and a stop are those of a plain loop.
fn is_result<T: Native>(
    op: ArithOp,
    mode: Overflow,
    bits: u32,
    a: &View<'_, T>,
    b: &View<'_, T>,
    column: &Fixed<T>,
    stop: Stop,
) -> bool {
    for i in 0..a.len().min(b.len()) {
        let row = match (a.value_at(i), b.value_at(i)) {
            (Some(x), Some(y)) => match result(op, mode, bits, x.wide(), y.wide()) {
                Ok(n) => Some(n),
                Err(kind) => return column.len() == i
                    && stop
                        == Stop::At {
                            row: i as u64,
                            kind,
                        },
            },
            _ => None,
        };
        if column.len() <= i || column.value_at(i).map(T::wide) != row {
            return false;
        }
    }
    column.len() == a.len() && stop == Stop::Never
}

fn computes<T: Native>(
    alloc: Global,
    op: ArithOp,
    mode: Overflow,
    bits: u32,
    a: &View<'_, T>,
    b: &View<'_, T>,
) -> bool {
    let left = part_of(a, 0, a.len());
    let right = part_of(b, 0, b.len());
    if left.len() != right.len() {
        return false;
    }
    let half = 1i128.wrapping_shl(bits.wrapping_sub(1));
    let least = T::wrapped(half.wrapping_neg());
    let greatest = T::wrapped(half.wrapping_sub(1));
    match arith(alloc, op, mode, least, greatest, left, right) {
        Ok((column, stop)) => is_result(op, mode, bits, a, b, &column, stop),
        Err(_) => false,
    }
}

// A constant or null, once for each row.
fn constants_of<T: Native>(alloc: Global, rows: usize, constant: Option<T>) -> Fixed<T> {
    let mut constants = FixedBuilder::new(alloc);
    for _ in 0..rows {
        let _ = constants.push(constant);
    }
    constants.finish()
}

// The same of a column with a constant, which is also laid out in a column for the loop.
fn computes_constant<T: Native>(
    alloc: Global,
    op: ArithOp,
    mode: Overflow,
    bits: u32,
    a: &View<'_, T>,
    constant: T,
) -> bool {
    let constants = constants_of(alloc, a.len(), Some(constant));
    let half = 1i128.wrapping_shl(bits.wrapping_sub(1));
    let least = T::wrapped(half.wrapping_neg());
    let greatest = T::wrapped(half.wrapping_sub(1));
    let part = part_of(a, 0, a.len());
    match arith_constant(alloc, op, mode, least, greatest, part, constant) {
        Ok((column, stop)) => is_result(op, mode, bits, a, &constants.view(), &column, stop),
        Err(_) => false,
    }
}

// The same of a column and a constant or null, which is also laid out in a column, on either side.
fn computes_either<T: Native>(
    alloc: Global,
    op: ArithOp,
    mode: Overflow,
    bits: u32,
    a: &View<'_, T>,
    constant: Option<T>,
) -> bool {
    let constants = constants_of(alloc, a.len(), constant);
    computes_with(alloc, op, mode, bits, a, constant, &constants.view())
        && computes_from(alloc, op, mode, bits, constant, &constants.view(), a)
}

fn computes_with<T: Native>(
    alloc: Global,
    op: ArithOp,
    mode: Overflow,
    bits: u32,
    a: &View<'_, T>,
    constant: Option<T>,
    constants: &View<'_, T>,
) -> bool {
    let half = 1i128.wrapping_shl(bits.wrapping_sub(1));
    let least = T::wrapped(half.wrapping_neg());
    let greatest = T::wrapped(half.wrapping_sub(1));
    let part = part_of(a, 0, a.len());
    match arith_with(alloc, op, mode, least, greatest, part, constant) {
        Ok((column, stop)) => is_result(op, mode, bits, a, constants, &column, stop),
        Err(_) => false,
    }
}

fn computes_from<T: Native>(
    alloc: Global,
    op: ArithOp,
    mode: Overflow,
    bits: u32,
    constant: Option<T>,
    constants: &View<'_, T>,
    a: &View<'_, T>,
) -> bool {
    let half = 1i128.wrapping_shl(bits.wrapping_sub(1));
    let least = T::wrapped(half.wrapping_neg());
    let greatest = T::wrapped(half.wrapping_sub(1));
    let part = part_of(a, 0, a.len());
    match arith_from(alloc, op, mode, least, greatest, constant, part) {
        Ok((column, stop)) => is_result(op, mode, bits, constants, a, &column, stop),
        Err(_) => false,
    }
}

// Whether each of these columns, constants and nulls are computed right.
fn computes_each<T: Native>(
    alloc: Global,
    op: ArithOp,
    mode: Overflow,
    bits: u32,
    a: &View<'_, T>,
    b: &View<'_, T>,
) -> bool {
    computes(alloc, op, mode, bits, a, b)
        && computes_constant(alloc, op, mode, bits, a, T::wrapped(3))
        && computes_either(alloc, op, mode, bits, a, Some(T::wrapped(3)))
        && computes_either(alloc, op, mode, bits, a, None)
}

fn computes_in_mode<T: Native>(
    alloc: Global,
    mode: Overflow,
    bits: u32,
    a: &View<'_, T>,
    b: &View<'_, T>,
) -> bool {
    for op in [
        ArithOp::Add,
        ArithOp::Subtract,
        ArithOp::Multiply,
        ArithOp::Divide,
        ArithOp::Modulus,
    ] {
        if !computes_each(alloc, op, mode, bits, a, b) {
            return false;
        }
    }
    true
}

// The same in each mode, of parts of this length.
fn computes_parts<T: Native>(
    alloc: Global,
    bits: u32,
    a: &View<'_, T>,
    b: &View<'_, T>,
    len: usize,
) -> bool {
    let left = part_of(a, len % 10, len);
    let right = part_of(b, len % 9, len);
    for mode in [Overflow::Error, Overflow::Saturate, Overflow::Silent] {
        if !computes_in_mode(alloc, mode, bits, &left, &right) {
            return false;
        }
    }
    true
}

fn computes_all<T: Native>(alloc: Global, bits: u32, nulls: bool) -> bool {
    let a = column::<T>(alloc, 150, nulls, 2);
    let b = column::<T>(alloc, 150, nulls, 4);
    for len in 0..131 {
        if !computes_parts(alloc, bits, &a.view(), &b.view(), len) {
            return false;
        }
    }
    true
}

#[test]
fn arithmetic_of_each_length_in_each_mode(rt: HostRuntime) {
    let alloc = rt.alloc();
    assert!(rt; computes_all::<i64>(alloc, 64, false) && computes_all::<i64>(alloc, 64, true));
    assert!(rt; computes_all::<i8>(alloc, 8, true) && computes_all::<i32>(alloc, 32, true));
}
