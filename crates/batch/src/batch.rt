// Record batches.
ghost use Rattle.std.specs.Prelude.{◌≡◌, All, length};
ghost use Rattle.std.proofs.Props.{props};
ghost use Rattle.batch.specs.ColumnValues.{values_of};

use crate::Column;
use sub_types::Fault;

/// Columns of one length. Contracts see them as a list of rows, by `rows_of`. Its columns are moved out by
/// `let Batch { columns, .. } = batch;`, and lent by `Column::view`.
#[derive(Debug, Drop)]
pub struct Batch {
    /// The batch's number among those of its table, from 0.
    pub number: u64,
    pub rows: u64,
    pub columns: Vec<Column>,
    pub ghost sized: { All (λ column. length (values_of column.values) ≡ rows) columns.items } by { Prim.hlevel props },
}

/// Rows, and the fault that ends them, if there is one.
#[derive(Debug, Drop)]
pub struct Piece {
    pub batch: Batch,
    pub end: Option<Fault>,
}
