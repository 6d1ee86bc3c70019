// Batches that the tests check.
ghost use Rattle.std.specs.Prelude.{◌≡◌, ◌∷◌, [], IfOk, IfSome};

use batch::{Batch, Column, ColumnBuilder, Piece};
use std::alloc::Global;
use sub_types::{ByteList, Kind, NoMemory, Ty, Value};
use table_rows::check_batch;

fn binary(nullable: bool) -> Ty
    ensures { result ≡ record { kind = Kind.Binary; nullable = nullable } }
{
    Ty {
        kind: Kind::Binary,
        nullable,
    }
}

// Adds so many zeros, or a null.
fn push_size(
    alloc: Global,
    builder: &mut ColumnBuilder,
    size: Option<usize>,
) -> Result<(), NoMemory>
    requires { builder.old.ty.kind ≡ Kind.Binary }
    ensures { builder.new.ty ≡ builder.old.ty }
{
    let Some(size) = size else {
        return builder.push(&Value::Null);
    };
    let bytes = vec![in alloc; 0; size]?;
    builder.push(&Value::Bytes(ByteList::from_vec(bytes)))
}

// A column of binaries of these sizes, null where there is none.
fn binaries(alloc: Global, sizes: &[Option<usize>]) -> Result<Column, NoMemory>
    ensures { IfOk result (λ column. column.ty.kind ≡ Kind.Binary) }
{
    let mut builder = ColumnBuilder::new(alloc, binary(true));
    for size in sizes {
        push_size(alloc, &mut builder, *size)?;
    }
    Ok(builder.finish())
}

// A batch of these columns, or none where one of them has another length.
fn batch_of(columns: Vec<Column>, rows: u64) -> Option<Batch>
    ensures { IfSome result (λ batch. batch.columns.items ≡ columns.items) }
{
    for column in &columns {
        if column.values.len() as u64 != rows {
            return None;
        }
    }
    Some(Batch {
        number: 0,
        rows,
        columns,
    })
}

// Two columns of binaries of these sizes, checked: whether nulls may stand in the first and in the second.
pub(super) fn checked(
    alloc: Global,
    first: &[Option<usize>],
    second: &[Option<usize>],
    nullable: (bool, bool),
) -> Result<Option<Piece>, NoMemory> {
    let rows = first.len() as u64;
    let first = binaries(alloc, first)?;
    let second = binaries(alloc, second)?;
    let types = [binary(nullable.0), binary(nullable.1)];
    let Some(batch) = batch_of(vec![in alloc; first, second]?, rows) else {
        return Ok(None);
    };
    Ok(Some(check_batch(alloc, 7, &types, batch)?))
}
