// Batches with other types.
ghost use Rattle.std.specs.Prelude.{◌≡◌, map};
ghost use Rattle.batch.specs.BatchRows.{columns_of, types_of};
ghost use Rattle.batch.specs.Column.{column_values, column_type};
ghost use Rattle.table_rows.specs.Read.{kinds_of};

use batch::{Batch, Column};
use sub_types::Ty;

/// The batch with these types, which say of each column whether nulls may stand in it. No value is copied.
pub fn retyped(types: &[Ty], batch: Batch) -> Batch
    requires { kinds_of (types_of batch) ≡ kinds_of types.now }
    ensures columns { columns_of result ≡ columns_of batch }
    ensures count { result.rows ≡ batch.rows }
    ensures types { types_of result ≡ types.now }
    ensures number { result.number ≡ batch.number }
{
    let Batch {
        number,
        rows,
        mut columns,
    } = batch;
    retype_columns(types, &mut columns);
    Batch {
        number,
        rows,
        columns,
    }
}

fn retype_columns(types: &[Ty], columns: &mut [Column])
    requires { kinds_of (map column_type columns.old) ≡ kinds_of types.now }
    ensures values { map column_values columns.new ≡ map column_values columns.old }
    ensures types { map column_type columns.new ≡ types.now }
{
    for i in 0..types.len() {
        retype(types[i], &mut columns[i]);
    }
}

fn retype(ty: Ty, column: &mut Column)
    requires { column.old.ty.kind ≡ ty.kind }
    ensures values { column.new.values ≡ column.old.values }
    ensures ty { column.new.ty ≡ ty }
{
    column.ty = ty;
}
