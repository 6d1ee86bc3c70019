// Sorts by expressions as sorts by columns: the expressions, the columns that their values become behind a row, and the columns of
// the row itself.
ghost use Rattle.std.specs.Prelude.{◌≡◌, ◌+◌, IfOk, map};
ghost use Rattle.std.specs.List.{range_with_len};
ghost use Rattle.rel_parts.specs.Parts.{orders_from};

use crate::joins::index_of;
use plan_leaves::Items;
use plan_typed::{Expr, SortKey};
use rel_specs::KeyOrder;
use std::alloc::Global;
use sub_types::NoMemory;

/// The expressions of a sort's keys.
pub fn key_exprs(alloc: Global, keys: &[SortKey]) -> Result<Items<Expr>, NoMemory>
    ensures { IfOk result (λ exprs. exprs ≡ map (λ key. key.expr) keys.now) }
{
    let mut exprs = Vec::with_capacity(alloc, keys.len())?;
    for key in keys {
        exprs.push(key.expr.copy(alloc)?)?;
    }
    Ok(Items::from_vec(exprs))
}

/// The order by the columns that the keys' values become behind a row of so many.
pub fn key_orders(alloc: Global, width: u32, keys: &[SortKey]) -> Result<Items<KeyOrder>, NoMemory>
    ensures { IfOk result (λ orders. orders ≡ orders_from width keys.now) }
{
    let mut orders = Vec::with_capacity(alloc, keys.len())?;
    let mut column = width;
    for key in keys {
        orders.push(KeyOrder {
            column,
            descending: key.descending,
            nulls_first: key.nulls_first,
        })?;
        column = next_index(column)?;
    }
    Ok(Items::from_vec(orders))
}

fn next_index(index: u32) -> Result<u32, NoMemory>
    ensures { IfOk result (λ next. next ≡ index + 1) }
{
    match index.checked_add(1) {
        Some(next) => Ok(next),
        None => Err(NoMemory),
    }
}

/// The indexes of so many columns.
pub fn first_columns(alloc: Global, count: u32) -> Result<Items<u32>, NoMemory>
    ensures { IfOk result (λ columns. columns ≡ range_with_len 0 count) }
{
    let mut columns = Vec::with_capacity(alloc, count as usize)?;
    for column in 0..count {
        columns.push(column)?;
    }
    Ok(Items::from_vec(columns))
}
