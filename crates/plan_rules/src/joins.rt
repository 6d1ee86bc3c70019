// The kinds and columns of joins and set operations, and the numbers of sorts and fetches (Substrait `JoinRel`, `SetRel`,
// `SortField` and `FetchRel`).
ghost use Rattle.std.specs.Prelude.{◌≡◌, ◌++◌, Some, IfOk, OnOk, map};
ghost use Rattle.std.specs.List.{list_all, list_any};
ghost use Rattle.func_table.specs.Kinds.{is_equal};
ghost use Rattle.plan_verdict.specs.Amounts as amounts;
ghost use Rattle.plan_verdict.specs.Rels as spec;
ghost use Rattle.plan_verdict.specs.Sets as sets;

use plan_leaves::{Items, RawLiteral};
use plan_typed::{JoinKind, SetOp};
use std::alloc::{AllocError, Global};
use sub_types::{NoMemory, Ty};

/// The kind of a join; none where the number isn't one of the six that are known (`JoinRel.JoinType`).
pub fn join_kind(type_: u32) -> Option<JoinKind>
    ensures { result ≡ spec.join_kind type_ }
{
    match type_ {
        1 => Some(JoinKind::Inner),
        2 => Some(JoinKind::Outer),
        3 => Some(JoinKind::Left),
        4 => Some(JoinKind::Right),
        5 => Some(JoinKind::LeftSemi),
        6 => Some(JoinKind::LeftAnti),
        _ => None,
    }
}

/// The set operation of a number, or none (`SetRel.SetOp`).
pub fn set_op(code: u32) -> Option<SetOp>
    ensures { result ≡ sets.set_op code }
{
    match code {
        1 => Some(SetOp::MinusPrimary),
        7 => Some(SetOp::MinusPrimaryAll),
        3 => Some(SetOp::IntersectionPrimary),
        4 => Some(SetOp::IntersectionMultiset),
        8 => Some(SetOp::IntersectionMultisetAll),
        5 => Some(SetOp::UnionDistinct),
        6 => Some(SetOp::UnionAll),
        _ => None,
    }
}

/// Whether a sort descends, and whether nulls come first; none where the number is another (`SortField.SortDirection`).
pub fn direction_of(direction: u32) -> Option<(bool, bool)>
    ensures { result ≡ spec.direction_of direction }
{
    match direction {
        1 => Some((false, true)),
        2 => Some((false, false)),
        3 => Some((true, true)),
        4 => Some((true, false)),
        _ => None,
    }
}

/// The columns of a join of these columns.
pub fn join_columns(
    alloc: Global,
    kind: JoinKind,
    left: &[Ty],
    right: &[Ty],
) -> Result<Items<Ty>, NoMemory>
    ensures { IfOk result (λ columns. columns ≡ spec.join_columns kind left.now right.now) }
{
    let mut columns = Items::new(alloc);
    match kind {
        JoinKind::Inner => {
            add(&mut columns, left)?;
            add(&mut columns, right)?;
        }
        JoinKind::Outer => {
            add_nullable(&mut columns, left)?;
            add_nullable(&mut columns, right)?;
        }
        JoinKind::Left => {
            add(&mut columns, left)?;
            add_nullable(&mut columns, right)?;
        }
        JoinKind::Right => {
            add_nullable(&mut columns, left)?;
            add(&mut columns, right)?;
        }
        JoinKind::LeftSemi | JoinKind::LeftAnti => add(&mut columns, left)?,
    }
    Ok(columns)
}

fn add(columns: &mut Items<Ty>, more: &[Ty]) -> Result<(), NoMemory>
    ensures { OnOk result (columns.new ≡ columns.old ++ more.now) }
{
    for column in more {
        columns.push(*column)?;
    }
    Ok(())
}

fn add_nullable(columns: &mut Items<Ty>, more: &[Ty]) -> Result<(), NoMemory>
    ensures { OnOk result (columns.new ≡ columns.old ++ spec.nullable more.now) }
{
    for column in more {
        columns.push(Ty {
            kind: column.kind,
            nullable: true,
        })?;
    }
    Ok(())
}

/// The columns of a set operation over the first input's columns and those of each other, of the same kinds in order.
pub fn set_columns(
    alloc: Global,
    op: SetOp,
    first: &[Ty],
    others: &[Items<Ty>],
) -> Result<Items<Ty>, NoMemory>
    ensures { IfOk result (λ columns. columns ≡ sets.set_columns op first.now others.now) }
{
    Ok(Items::from_vec(each_column(alloc, op, first, others)?))
}

fn each_column(
    alloc: Global,
    op: SetOp,
    first: &[Ty],
    others: &[Items<Ty>],
) -> Result<Vec<Ty>, AllocError>
    ensures { IfOk result (λ columns. columns.items ≡ sets.set_columns op first.now others.now) }
{
    first
        .iter()
        .enumerate()
        .map(|(place, column)| Ty {
            kind: column.kind,
            nullable: is_nullable_in(op, column.nullable, place, others),
        })
        .collect(alloc)
}

// Whether a column may be null, by whether it may in the first input and in the others at this place.
fn is_nullable_in(op: SetOp, first: bool, place: usize, others: &[Items<Ty>]) -> bool
    ensures { result ≡ sets.is_nullable_in op first (map (sets.is_nullable_at place) others.now) }
{
    match op {
        SetOp::MinusPrimary | SetOp::MinusPrimaryAll => first,
        SetOp::IntersectionPrimary => first && some_is_nullable(place, others),
        SetOp::IntersectionMultiset | SetOp::IntersectionMultisetAll => {
            first && each_is_nullable(place, others)
        }
        SetOp::UnionDistinct | SetOp::UnionAll => first || some_is_nullable(place, others),
    }
}

fn some_is_nullable(place: usize, others: &[Items<Ty>]) -> bool
    ensures { result ≡ list_any (λ other. other) (map (sets.is_nullable_at place) others.now) }
{
    others.iter().any(|other| is_nullable_at(place, other))
}

fn each_is_nullable(place: usize, others: &[Items<Ty>]) -> bool
    ensures { result ≡ list_all (λ other. other) (map (sets.is_nullable_at place) others.now) }
{
    others.iter().all(|other| is_nullable_at(place, other))
}

fn is_nullable_at(place: usize, columns: &Items<Ty>) -> bool
    ensures { result ≡ sets.is_nullable_at place columns.now }
{
    match columns.get(place) {
        Some(column) => column.nullable,
        None => false,
    }
}

/// Whether the columns are as many, and of the same kinds in order.
pub fn are_of_kinds(first: &[Ty], other: &[Ty]) -> bool
    ensures { result ≡ sets.are_of_kinds first.now other.now }
{
    first.len() == other.len() && first.iter().zip(other).all(|(a, b)| is_of_kind(a, b))
}

fn is_of_kind(a: &Ty, b: &Ty) -> bool
    ensures { result ≡ is_equal a.now.kind b.now.kind }
{
    a.kind == b.kind
}

/// How many rows a fetch passes over, by its offset: none where there is no offset. None where the number is negative.
pub fn rows_skipped(amount: Option<i64>) -> Option<u64>
    ensures { result ≡ amounts.rows_skipped amount }
{
    match amount {
        None => Some(0),
        Some(rows) if rows < 0 => None,
        Some(rows) => Some(rows as u64),
    }
}

/// How many rows a fetch takes at most, by its count: any number where there is none, or where it is -1. None where the number is
/// another negative one.
pub fn rows_taken(amount: Option<i64>) -> Option<Option<u64>>
    ensures { result ≡ amounts.rows_taken amount }
{
    match amount {
        None | Some(-1) => Some(None),
        Some(rows) if rows < 0 => None,
        Some(rows) => Some(Some(rows as u64)),
    }
}

/// The whole number that a literal is, or none where it is null; none at all where it is neither.
pub fn amount_of(literal: &RawLiteral) -> Option<Option<i64>>
    ensures { result ≡ amounts.amount_of (Some literal.now) }
{
    match literal {
        RawLiteral::I8 { value, .. }
        | RawLiteral::I16 { value, .. }
        | RawLiteral::I32 { value, .. } => { Some(Some(*value as i64)) }
        RawLiteral::I64 { value, .. } => Some(Some(*value)),
        RawLiteral::Null { .. } => Some(None),
        _ => None,
    }
}
