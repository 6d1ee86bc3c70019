// The values that measures over distinct values take.
ghost use Rattle.std.specs.Prelude.{◌≡◌, ◌+◌, ◌<◌, ◌≤◌, ◌∷◌, ◌++◌, [], None, true, length, map, replicate, slice_index_or, IfOk, OnOk, if◌then◌else◌};
ghost use Rattle.sub_types.specs.declared.value.Value.TheVariants.{Null};
ghost use Rattle.plan_denote.specs.Computed.{is_true as spec_is_true};
ghost use Rattle.batch.specs.Column.{column_values};
ghost use Rattle.group_laws.specs.Columns.{spread};
ghost use Rattle.group_columns.specs.Columns.{IsWhole, values_or_true, trues_in};
ghost use Rattle.group_firsts.specs.Firsts.{or_null};
ghost use Rattle.set_inputs.specs.Inputs.{values_once};

use batch::{Column, ColumnBuilder};
use eval_values::is_true;
use group_columns::Taken;
use std::alloc::Global;
use sub_types::{Kind, NoMemory, Ty, Value};

/// The type of columns of nulls, and of columns of truths.
const TRUTH: Ty = Ty {
    kind: Kind::Bool,
    nullable: true,
};

/// So many nulls.
pub(crate) fn nulls(alloc: Global, rows: usize) -> Result<Column, NoMemory>
    ensures { IfOk result (λ column. column_values column ≡ replicate rows Null) }
{
    Column::constant(alloc, TRUTH, &Value::Null, rows)
}

fn trues(alloc: Global, rows: usize) -> Result<Column, NoMemory>
    ensures { IfOk result (λ column. column_values column ≡ values_or_true rows None) }
{
    Column::constant(alloc, TRUTH, &Value::Bool(true), rows)
}

/// What a measure takes of each row, where it is over distinct values, and else nulls.
pub(crate) fn value_column(
    alloc: Global,
    is_distinct: bool,
    taken: &Taken,
    rows: usize,
) -> Result<Column, NoMemory>
    requires { IsWhole rows taken.now }
    ensures { IfOk result (λ column. column_values column ≡ values_once rows is_distinct taken.now) }
{
    if !is_distinct {
        return nulls(alloc, rows);
    }
    match &taken.values {
        Some(values) => spread_column(alloc, &taken.tests, values, rows),
        None => {
            let values = trues(alloc, rows)?;
            spread_column(alloc, &taken.tests, &values, rows)
        }
    }
}

/// The values, each at its row, and null at the rows whose test isn't true.
fn spread_column(
    alloc: Global,
    tests: &Option<Column>,
    values: &Column,
    rows: usize,
) -> Result<Column, NoMemory>
    requires tests { length (values_or_true rows tests.now) ≡ rows }
    requires values { trues_in (values_or_true rows tests.now) ≤ length (column_values values.now) }
    ensures { IfOk result (λ column. column_values column ≡ map or_null (spread (values_or_true rows tests.now) (column_values values.now))) }
{
    let mut builder = ColumnBuilder::new(alloc, values.ty);
    let mut place = 0;
    for row in 0..rows {
        place = push_row(alloc, &mut builder, tests, values, rows, row, place)?;
    }
    Ok(builder.finish())
}

/// Adds a row's value, the next one, where its test is true, and gives the place of the one behind it.
fn push_row(
    alloc: Global,
    builder: &mut ColumnBuilder,
    tests: &Option<Column>,
    values: &Column,
    rows: usize,
    row: usize,
    place: usize,
) -> Result<usize, NoMemory>
    requires alike { values.now.ty.kind ≡ builder.old.ty.kind }
    requires row { row < length (values_or_true rows tests.now) }
    requires within { row < rows }
    requires behind { place ≤ row }
    requires place { spec_is_true (slice_index_or (values_or_true rows tests.now) row Null) ≡ true → place < length (column_values values.now) }
    ensures values { OnOk result (builder.new.values ≡ builder.old.values ++ (if spec_is_true (slice_index_or (values_or_true rows tests.now) row Null) then slice_index_or (column_values values.now) place Null else Null) ∷ []) }
    ensures ty { OnOk result (builder.new.ty ≡ builder.old.ty) }
    ensures next { IfOk result (λ next. next ≡ if spec_is_true (slice_index_or (values_or_true rows tests.now) row Null) then place + 1 else place) }
{
    if is_taken(alloc, tests, rows, row)? {
        builder.append(values, place, place + 1)?;
        return Ok(place + 1);
    }
    builder.push(&Value::Null)?;
    Ok(place)
}

/// Whether a row's test is true, or there is none.
fn is_taken(
    alloc: Global,
    tests: &Option<Column>,
    rows: usize,
    row: usize,
) -> Result<bool, NoMemory>
    requires row { row < length (values_or_true rows tests.now) }
    requires within { row < rows }
    ensures { IfOk result (λ taken. taken ≡ spec_is_true (slice_index_or (values_or_true rows tests.now) row Null)) }
{
    match tests {
        Some(column) => Ok(is_true(&column.values.value_at(alloc, row)?)),
        None => Ok(true),
    }
}
