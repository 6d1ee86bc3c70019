// The demo's tables.
ghost use Rattle.std.specs.Prelude.{◌≡◌, ◌≤◌, ◌*◌, [], ◌∷◌, IfOk, length};
ghost use Rattle.sub_types.specs.declared.value.Value.TheVariants.{Null};
ghost use Rattle.sub_types.specs.Rows.{transpose};
ghost use Rattle.batch.specs.BatchRows.{rows_of, types_of};
ghost use Rattle.batch.specs.Column.{column_values};
ghost use Rattle.gen_data.specs.Rows.{MAX_NUMBER, order_rows, line_rows};
ghost use Rattle.gen_data.specs.Checked.{order_types, line_types};

use crate::columns::{ids, oids, quantities, regions};
use batch::{Batch, Column};
use std::alloc::Global;
use sub_types::NoMemory;

/// So many orders.
#[tactic(auto, unfolding(crate::specs::Rows::order_rows), using(crate::proofs::TableLaws::order_columns, crate::proofs::TableLaws::so_many))]
pub(crate) fn orders(alloc: Global, number: u32) -> Result<Batch, NoMemory>
    ensures rows { IfOk result (λ batch. rows_of batch ≡ order_rows number) }
    ensures types { IfOk result (λ batch. types_of batch ≡ order_types) }
    ensures count { IfOk result (λ batch. batch.rows ≡ number) }
{
    two_columns(alloc, number, ids(alloc, number)?, regions(alloc, number)?)
}

/// The lines of so many orders.
#[tactic(auto, unfolding(crate::specs::Rows::line_rows), using(crate::proofs::TableLaws::line_columns, crate::proofs::TableLaws::so_many))]
pub(crate) fn lines(alloc: Global, number: u32) -> Result<Batch, NoMemory>
    requires { number ≤ MAX_NUMBER }
    ensures rows { IfOk result (λ batch. rows_of batch ≡ line_rows number) }
    ensures types { IfOk result (λ batch. types_of batch ≡ line_types) }
    ensures count { IfOk result (λ batch. batch.rows ≡ 4 * number) }
{
    two_columns(
        alloc,
        4 * number,
        oids(alloc, number)?,
        quantities(alloc, number)?,
    )
}

// So many rows of two columns.
#[tactic(auto, using(crate::proofs::TableLaws::both_long))]
fn two_columns(alloc: Global, rows: u32, first: Column, second: Column) -> Result<Batch, NoMemory>
    requires first { length (column_values first) ≡ rows }
    requires second { length (column_values second) ≡ rows }
    ensures rows { IfOk result (λ batch. rows_of batch ≡ transpose Null rows (column_values first ∷ column_values second ∷ [])) }
    ensures types { IfOk result (λ batch. types_of batch ≡ first.ty ∷ second.ty ∷ []) }
    ensures count { IfOk result (λ batch. batch.rows ≡ rows) }
{
    let columns = vec![in alloc; first, second]?;
    Ok(Batch {
        number: 0,
        rows: u64::from(rows),
        columns,
    })
}
