// The columns and the values that sets of groups take of a batch.
ghost use Rattle.std.specs.Prelude.{◌≡◌, ◌≤◌, ◌∷◌, ◌++◌, ℕ, List, length, map, replicate, All, IfOk};
ghost use Rattle.std.specs.List.{range_with_len};
ghost use Rattle.sub_types.specs.declared.value.Value.TheVariants.{Null};
ghost use Rattle.plan_denote.specs.Aggregate.{Entry};
ghost use Rattle.batch.specs.Column.{column_values};
ghost use Rattle.batch.specs.ColumnValues.{values_of};
ghost use Rattle.group_laws.specs.Columns.{zipped};
ghost use Rattle.group_columns.specs.Columns.{IsWhole};
ghost use Rattle.group_states.specs.States.{AreEntries};
ghost use Rattle.set_inputs.specs.Inputs.{AreInputs, values_once};

use crate::values::{nulls, value_column};
use batch::{Batch, Column};
use group_columns::Taken;
use group_inputs::Inputs;
use plan_typed::SetMeasure;
use std::alloc::Global;
use sub_types::NoMemory;

/// What sets of groups take of a batch's rows. Contracts say by `AreInputs` of which rows it is.
#[derive(Drop)]
pub struct SetInputs {
    /// A column for each grouping expression, one of nulls, and one for each measure: what it takes of each row, if it is over
    /// distinct values.
    pub batch: Batch,
    /// The place of the column of nulls.
    pub nulls: usize,
    /// What each measure takes, each value as often as it comes.
    pub taken: Vec<Taken>,
}

/// The keys of a batch's rows and what measures take of them, for all sets of the groups.
pub fn inputs_over_sets(
    alloc: Global,
    measures: &[SetMeasure],
    inputs: Inputs,
) -> Result<SetInputs, NoMemory>
    requires all { length inputs.taken.items ≡ length measures.now }
    requires whole { All (IsWhole inputs.keys.rows) inputs.taken.items }
    ensures rows { IfOk result (λ out. out.batch.rows ≡ inputs.keys.rows) }
    ensures inputs { (width : ℕ) (later : List Entry) → inputs.columns.items ≡ range_with_len 0 width → width ≤ length inputs.keys.columns.items → AreEntries inputs.columns.items inputs.keys inputs.taken.items later → IfOk result (AreInputs width measures.now later) }
{
    let Inputs { keys, taken, .. } = inputs;
    let Batch {
        number,
        rows,
        columns,
    } = keys;
    let nulls = columns.len();
    let columns = widened(alloc, measures, columns, taken.as_slice(), rows as usize)?;
    let batch = Batch {
        number,
        rows,
        columns,
    };
    Ok(SetInputs {
        batch,
        nulls,
        taken,
    })
}

/// The columns, one of nulls, and the values of each measure that is over distinct values.
fn widened(
    alloc: Global,
    measures: &[SetMeasure],
    columns: Vec<Column>,
    taken: &[Taken],
    rows: usize,
) -> Result<Vec<Column>, NoMemory>
    requires sized { All (λ column. length (values_of column.values) ≡ rows) columns.items }
    requires all { length taken.now ≡ length measures.now }
    requires whole { All (IsWhole rows) taken.now }
    ensures sized { IfOk result (λ more. All (λ column. length (values_of column.values) ≡ rows) more.items) }
    ensures values { IfOk result (λ more. map column_values more.items ≡ map column_values columns.items ++ replicate rows Null ∷ zipped (λ measure one. values_once rows measure.distinct one) measures.now taken.now) }
{
    let mut columns = columns;
    columns.push(nulls(alloc, rows)?)?;
    for place in 0..taken.len() {
        let column = value_column(alloc, measures[place].distinct, &taken[place], rows)?;
        columns.push(column)?;
    }
    Ok(columns)
}
