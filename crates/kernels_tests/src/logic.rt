// Kernels on columns of truth values.
ghost use Rattle.std.specs.Prelude.{◌≡◌, length};

use col_fixed::{BoolBuilder, BoolCol};
use kernels::{Rows, and3, not3, or3, select, xor3};
use std::alloc::Global;
use sub_types::NoMemory;

// true, false and null in turn.
fn value(i: usize, nulls: bool, step: usize) -> Option<bool> {
    let place = i / step.max(1) % 3;
    if nulls && place == 2 {
        None
    } else {
        Some(place == 0)
    }
}

fn column(alloc: Global, n: usize, nulls: bool, step: usize) -> BoolCol {
    let mut builder = BoolBuilder::new(alloc);
    for i in 0..n {
        let _ = builder.push(value(i, nulls, step));
    }
    builder.finish()
}

fn and_of(a: Option<bool>, b: Option<bool>) -> Option<bool> {
    if a == Some(false) || b == Some(false) {
        Some(false)
    } else if a.is_none() || b.is_none() {
        None
    } else {
        Some(true)
    }
}

fn opposite(a: Option<bool>) -> Option<bool> {
    a.map(|truth| !truth)
}

fn or_of(a: Option<bool>, b: Option<bool>) -> Option<bool> {
    opposite(and_of(opposite(a), opposite(b)))
}

fn xor_of(a: Option<bool>, b: Option<bool>) -> Option<bool> {
    if a.is_none() || b.is_none() {
        None
    } else {
        Some(a != b)
    }
}

// What gives a column of one, or of two that are as long.
#[derive(Clone, Copy)]
enum Connective {
    And,
    Or,
    Xor,
    Not,
}

fn of(connective: Connective, a: Option<bool>, b: Option<bool>) -> Option<bool> {
    match connective {
        Connective::And => and_of(a, b),
        Connective::Or => or_of(a, b),
        Connective::Xor => xor_of(a, b),
        Connective::Not => opposite(a),
    }
}

fn connected(
    alloc: Global,
    connective: Connective,
    a: &BoolCol,
    b: &BoolCol,
) -> Result<BoolCol, NoMemory>
    requires { length a.now ≡ length b.now }
{
    match connective {
        Connective::And => and3(alloc, a, b),
        Connective::Or => or3(alloc, a, b),
        Connective::Xor => xor3(alloc, a, b),
        Connective::Not => not3(alloc, a),
    }
}

// Whether the column is what the loop says.
fn are(connective: Connective, a: &BoolCol, b: &BoolCol, seen: &BoolCol) -> bool {
    if b.len() != a.len() || seen.len() != a.len() {
        return false;
    }
    for i in 0..a.len() {
        if seen.value_at(i) != of(connective, a.value_at(i), b.value_at(i)) {
            return false;
        }
    }
    true
}

fn connects_by(alloc: Global, connective: Connective, a: &BoolCol, b: &BoolCol) -> bool {
    if a.len() != b.len() {
        return false;
    }
    match connected(alloc, connective, a, b) {
        Ok(seen) => are(connective, a, b, &seen),
        Err(_) => false,
    }
}

fn connects(alloc: Global, n: usize, nulls: bool) -> bool {
    let a = column(alloc, n, nulls, 1);
    let b = column(alloc, n, nulls, 3);
    connects_by(alloc, Connective::And, &a, &b)
        && connects_by(alloc, Connective::Or, &a, &b)
        && connects_by(alloc, Connective::Xor, &a, &b)
        && connects_by(alloc, Connective::Not, &a, &b)
}

// Whether these are the places of the true values.
fn are_places(a: &BoolCol, rows: &[u64]) -> bool {
    let mut count = 0;
    for i in 0..a.len() {
        if a.value_at(i) == Some(true) {
            if rows.get(count) != Some(&(i as u64)) {
                return false;
            }
            count += 1;
        }
    }
    rows.len() == count
}

// Whether these are the first `n` rows of the selection, and whether a list is read.
fn are_rows(rows: &Rows<'_>, on: &[u64], n: usize, listed: bool) -> bool {
    let mut same = rows.len() == n.min(on.len()) && rows.list().is_some() == listed;
    for i in 0..rows.len().min(on.len()) {
        same &= rows.row_at(i) == on[i];
    }
    same
}

// Whether the rows of a selection are lent right, in a batch of `n`.
fn lends(alloc: Global, n: usize, a: &BoolCol) -> bool {
    let Ok(on) = select(alloc, a) else {
        return false;
    };
    let listed = Rows::listed(&on.rows);
    let half = listed.len() / 2;
    let all = Rows::all(n);
    are_rows(&listed, &on.rows, n, true)
        && are_rows(&listed.first(half), &on.rows, half, true)
        && all.len() == n
        && all.list().is_none()
        && all.first(all.len() / 2).len() == n / 2
}

fn selects(alloc: Global, n: usize, nulls: bool) -> bool {
    let a = column(alloc, n, nulls, 2);
    match select(alloc, &a) {
        Ok(selection) => are_places(&a, &selection.rows),
        Err(_) => false,
    }
}

#[test]
fn logic_and_true_places_of_each_length(rt: HostRuntime) {
    let alloc = rt.alloc();
    for n in 0..131 {
        assert!(rt; connects(alloc, n, false) && connects(alloc, n, true));
        assert!(rt; selects(alloc, n, false) && selects(alloc, n, true));
        assert!(rt; lends(alloc, n, &column(alloc, n, true, 2)));
    }
}
