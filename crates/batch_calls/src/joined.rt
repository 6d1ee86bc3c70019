//! `and` and `or` of whole columns.
ghost use Rattle.std.specs.Prelude.{◌≡◌, ℕ, List, length, map, IfOk, IfSome};
ghost use Rattle.sub_types.specs.Nullable.{bool_value};
ghost use Rattle.sub_types.specs.declared.kind.Kind.TheVariants as kinds;
ghost use Rattle.plan_denote.specs.Computed as computed;
ghost use Rattle.batch.specs.ColumnValues.{values_of};
ghost use Rattle.batch_nodes.specs.Early as spec;
ghost use Rattle.batch_nodes.specs.Found.{found_values};
ghost use Rattle.batch_nodes.specs.Parts.{AreUntil};
ghost use Rattle.kernels.specs.declared.selection.Stop.TheVariants as stops;
ghost use Rattle.plan_denote.specs.Logic as logic;
ghost use Rattle.std.specs.Simd.Lanes.{zip2};

use batch::{Column, ColumnData};
use batch_nodes::{Early, Found};
use col_fixed::BoolCol;
use kernels::{Stop, and3, or3};
use std::alloc::Global;
use sub_types::{NoMemory, Ty};

/// What a call that ends early comes to with one argument more, where both are known at all rows and are columns of truth
/// values.
pub fn join_all(
    alloc: Global,
    early: Early,
    ty: Ty,
    first: &Column,
    first_stop: Stop,
    rest: &Found<'_>,
    rest_stop: Stop,
) -> Result<Option<Column>, NoMemory>
    requires { spec.IsOfKind early ty.kind }
    ensures values { IfOk result (λ found. IfSome found (λ column. (rows : List ℕ) (so_far other : ℕ → computed.Computed) → AreUntil so_far rows (values_of first.now.values) first_stop → AreUntil other rows (found_values rest.now) rest_stop
        → AreUntil (λ i. spec.one_more early (so_far i) (other i)) rows (values_of column.values) stops.Never)) }
    ensures ty { IfOk result (λ found. IfSome found (λ column. column.ty ≡ ty)) }
{
    match (early, first_stop, rest_stop) {
        (Early::Truth(end), Stop::Never, Stop::Never) => join_known(alloc, end, ty, first, rest),
        _ => Ok(None),
    }
}

/// The same of values that are known at all rows.
fn join_known(
    alloc: Global,
    end: bool,
    ty: Ty,
    first: &Column,
    rest: &Found<'_>,
) -> Result<Option<Column>, NoMemory>
    requires { ty.kind ≡ kinds.Bool }
    ensures values { IfOk result (λ found. IfSome found (λ column. values_of column.values ≡ zip2 (logic.three_valued end) (values_of first.now.values) (found_values rest.now))) }
    ensures ty { IfOk result (λ found. IfSome found (λ column. column.ty ≡ ty)) }
{
    match bool_column(first) {
        Some(a) => match truths_of(rest) {
            Some(b) => join_truths(alloc, end, ty, a, b),
            None => Ok(None),
        },
        None => Ok(None),
    }
}

/// The same of two columns of truth values.
fn join_truths(
    alloc: Global,
    end: bool,
    ty: Ty,
    a: &BoolCol,
    b: &BoolCol,
) -> Result<Option<Column>, NoMemory>
    requires { ty.kind ≡ kinds.Bool }
    ensures values { IfOk result (λ found. IfSome found (λ column. values_of column.values ≡ zip2 (logic.three_valued end) (map bool_value a.now) (map bool_value b.now))) }
    ensures ty { IfOk result (λ found. IfSome found (λ column. column.ty ≡ ty)) }
{
    if a.len() != b.len() {
        return Ok(None);
    }
    let both = three_valued(alloc, end, a, b)?;
    Ok(Some(Column::of_truths(ty, both)))
}

/// All values, where they are a column of truth values.
fn truths_of<'b>(found: &'b Found<'_>) -> Option<&'b BoolCol>
    ensures { IfSome result (λ column. map bool_value column.now ≡ found_values found.now) }
{
    match found {
        Found::Made(column) => bool_column(column),
        Found::Whole(column, n) => {
            if column.values.len() > *n {
                return None;
            }
            bool_column(column)
        }
        Found::Constant(_, _) => None,
    }
}

fn bool_column(column: &Column) -> Option<&BoolCol>
    ensures { IfSome result (λ truths. map bool_value truths.now ≡ values_of column.now.values) }
{
    match &column.values {
        ColumnData::Bool(truths) => Some(truths),
        _ => None,
    }
}

/// `and` at each place where `end` is false, `or` where it is true.
fn three_valued(alloc: Global, end: bool, a: &BoolCol, b: &BoolCol) -> Result<BoolCol, NoMemory>
    requires { length a.now ≡ length b.now }
    ensures { IfOk result (λ column. map bool_value column ≡ zip2 (logic.three_valued end) (map bool_value a.now) (map bool_value b.now)) }
{
    if end {
        or3(alloc, a, b)
    } else {
        and3(alloc, a, b)
    }
}
