// What an expression is worth at some rows.
ghost use Rattle.std.specs.Prelude.{◌≡◌, ◌<◌, length, take, slice_index_or, IfOk};
ghost use Rattle.batch.specs.ColumnValues.{values_of};
ghost use Rattle.sub_types.specs.declared.value.Value.TheVariants.{Null};
ghost use Rattle.batch_nodes.specs.Found.{found_values, IsOfKind};

use batch::Column;
use std::alloc::Global;
use sub_types::{NoMemory, Ty, Value};

/// The values of an expression at some rows: a column that was made for them, the first so many of a column of the batch, or
/// so many times a constant.
#[derive(Drop)]
pub enum Found<'a> {
    Made(Column),
    Whole(&'a Column, usize),
    Constant(&'a Value, usize),
}

impl<'a> Found<'a> {
    pub fn len(&self) -> usize
        ensures { result ≡ length (found_values self.now) }
    {
        match self {
            Found::Made(column) => column.values.len(),
            Found::Whole(column, n) => count_of(column, *n),
            Found::Constant(_, n) => *n,
        }
    }

    /// The value at a place.
    pub fn value_at(&self, alloc: Global, i: usize) -> Result<Value, NoMemory>
        requires { i < length (found_values self.now) }
        ensures { IfOk result (λ value. value ≡ slice_index_or (found_values self.now) i Null) }
    {
        match self {
            Found::Made(column) => column.values.value_at(alloc, i),
            Found::Whole(column, n) => first_at(alloc, column, *n, i),
            Found::Constant(value, _) => value.copy(alloc),
        }
    }

    /// The values as a column of a type. Only what is lent is copied.
    pub fn into_column(self, alloc: Global, ty: Ty) -> Result<Column, NoMemory>
        requires { IsOfKind ty.kind self }
        ensures values { IfOk result (λ column. values_of column.values ≡ found_values self.entry) }
        ensures ty { IfOk result (λ column. column.ty ≡ ty) }
    {
        match self {
            Found::Made(column) => Ok(with_type(ty, column)),
            Found::Whole(column, n) => first_of(alloc, ty, column, n),
            Found::Constant(value, n) => Column::constant(alloc, ty, value, n),
        }
    }
}

/// How many of the first so many values there are.
fn count_of(column: &Column, n: usize) -> usize
    ensures { result ≡ length (take n (values_of column.now.values)) }
{
    n.min(column.values.len())
}

fn first_at(alloc: Global, column: &Column, n: usize, i: usize) -> Result<Value, NoMemory>
    requires { i < length (take n (values_of column.now.values)) }
    ensures { IfOk result (λ value. value ≡ slice_index_or (take n (values_of column.now.values)) i Null) }
{
    column.values.value_at(alloc, i)
}

/// The first so many values as a column of a type.
fn first_of(alloc: Global, ty: Ty, column: &Column, n: usize) -> Result<Column, NoMemory>
    requires { ty.kind ≡ column.now.ty.kind }
    ensures values { IfOk result (λ copy. values_of copy.values ≡ take n (values_of column.now.values)) }
    ensures ty { IfOk result (λ copy. copy.ty ≡ ty) }
{
    let copy = column.part(alloc, 0, count_of(column, n))?;
    Ok(with_type(ty, copy))
}

/// The column as one of another type of the same kind.
fn with_type(ty: Ty, column: Column) -> Column
    requires { ty.kind ≡ column.ty.kind }
    ensures values { values_of result.values ≡ values_of column.values }
    ensures ty { result.ty ≡ ty }
{
    Column {
        ty,
        values: column.values,
    }
}
