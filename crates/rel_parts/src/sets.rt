// The columns of a set operation, by those of its inputs.
ghost use Rattle.std.specs.Prelude.{◌≡◌, IfOk, map};
ghost use Rattle.std.specs.List.{list_all, list_any};
ghost use Rattle.plan_typed.specs.Types.{columns_of};
ghost use Rattle.well_typed.specs.Columns as spec;
ghost use Rattle.well_typed.specs.WellTyped.{set_columns_of};

use plan_leaves::Items;
use plan_typed::{Rel, SetOp};
use std::alloc::{AllocError, Global};
use sub_types::{NoMemory, Ty};

/// The columns that a set operation over these inputs gives.
pub fn set_types(alloc: Global, op: SetOp, inputs: &[Rel]) -> Result<Items<Ty>, NoMemory>
    ensures { IfOk result (λ types. types ≡ set_columns_of op (map columns_of inputs.now)) }
{
    match inputs {
        [] => Ok(Items::new(alloc)),
        [first, others @ ..] => {
            let types = each_column(alloc, op, first.columns.as_slice(), others)?;
            Ok(Items::from_vec(types))
        }
    }
}

fn each_column(
    alloc: Global,
    op: SetOp,
    first: &[Ty],
    others: &[Rel],
) -> Result<Vec<Ty>, AllocError>
    ensures { IfOk result (λ types. types.items ≡ spec.set_columns op first.now (map columns_of others.now)) }
{
    first
        .iter()
        .enumerate()
        .map(|(place, column)| Ty {
            kind: column.kind,
            nullable: is_nullable_in(op, column.nullable, place, others),
        })
        .collect(alloc)
}

// Whether a column may be null, by whether it may in the first input and in the others at this place.
fn is_nullable_in(op: SetOp, first: bool, place: usize, others: &[Rel]) -> bool
    ensures { result ≡ spec.is_nullable_in op first (map (spec.is_nullable_at place) (map columns_of others.now)) }
{
    match op {
        SetOp::MinusPrimary | SetOp::MinusPrimaryAll => first,
        SetOp::IntersectionPrimary => first && some_is_nullable(place, others),
        SetOp::IntersectionMultiset | SetOp::IntersectionMultisetAll => {
            first && each_is_nullable(place, others)
        }
        SetOp::UnionDistinct | SetOp::UnionAll => first || some_is_nullable(place, others),
    }
}

fn some_is_nullable(place: usize, others: &[Rel]) -> bool
    ensures { result ≡ list_any (λ other. other) (map (spec.is_nullable_at place) (map columns_of others.now)) }
{
    match others {
        [] => false,
        [other, rest @ ..] => {
            if is_nullable_at(place, other) {
                true
            } else {
                some_is_nullable(place, rest)
            }
        }
    }
}

fn each_is_nullable(place: usize, others: &[Rel]) -> bool
    ensures { result ≡ list_all (λ other. other) (map (spec.is_nullable_at place) (map columns_of others.now)) }
{
    match others {
        [] => true,
        [other, rest @ ..] => {
            if is_nullable_at(place, other) {
                each_is_nullable(place, rest)
            } else {
                false
            }
        }
    }
}

fn is_nullable_at(place: usize, rel: &Rel) -> bool
    ensures { result ≡ spec.is_nullable_at place (columns_of rel.now) }
{
    match rel.columns.get(place) {
        Some(column) => column.nullable,
        None => false,
    }
}
