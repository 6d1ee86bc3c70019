//! What a set says of the values of a column of integers or of bytes: no value is copied, nor a text.
ghost use Rattle.std.specs.Prelude.{◌≡◌, map, IfOk, IfSome};
ghost use Rattle.sub_types.specs.Nullable.{bool_value, bytes_value, int_value};
ghost use Rattle.batch.specs.ColumnValues.{values_of};
ghost use Rattle.batch_nodes.specs.Found.{found_values};
ghost use Rattle.value_sets.specs.Sets.{answer_by, has};

use batch::{Column, ColumnData};
use batch_nodes::Found;
use col_fixed::{BoolBuilder, BoolCol, Fixed};
use col_text::TextCol;
use std::alloc::Global;
use sub_types::NoMemory;
use value_sets::{ValueSet, answer_bytes, answer_int};

/// The answers, where the values are those of a whole column of 64-bit integers or of bytes.
pub(crate) fn column_answers(
    alloc: Global,
    set: &ValueSet,
    values: &Found<'_>,
) -> Result<Option<BoolCol>, NoMemory>
    ensures { IfOk result (λ made. IfSome made (λ truths. map bool_value truths ≡ map (answer_by (has set.now)) (found_values values.now))) }
{
    match whole_column(values) {
        Some(column) => stored_answers(alloc, set, column),
        None => Ok(None),
    }
}

/// The column of which all values are meant.
fn whole_column<'b>(values: &'b Found<'_>) -> Option<&'b Column>
    ensures { IfSome result (λ column. values_of column.now.values ≡ found_values values.now) }
{
    match values {
        Found::Made(column) => Some(column),
        Found::Whole(column, n) => {
            if column.values.len() > *n {
                return None;
            }
            Some(column)
        }
        Found::Constant(_, _) => None,
    }
}

fn stored_answers(
    alloc: Global,
    set: &ValueSet,
    column: &Column,
) -> Result<Option<BoolCol>, NoMemory>
    ensures { IfOk result (λ made. IfSome made (λ truths. map bool_value truths ≡ map (answer_by (has set.now)) (values_of column.now.values))) }
{
    match &column.values {
        ColumnData::I64(numbers) => int_answers(alloc, set, numbers),
        ColumnData::Bytes(texts) => bytes_answers(alloc, set, texts),
        _ => Ok(None),
    }
}

fn int_answers(
    alloc: Global,
    set: &ValueSet,
    numbers: &Fixed<i64>,
) -> Result<Option<BoolCol>, NoMemory>
    ensures { IfOk result (λ made. IfSome made (λ truths. map bool_value truths ≡ map (answer_by (has set.now)) (map int_value numbers.now))) }
{
    let mut built = BoolBuilder::with_capacity(alloc, numbers.len())?;
    for i in 0..numbers.len() {
        built.push(answer_int(set, numbers.value_at(i)))?;
    }
    Ok(Some(built.finish()))
}

fn bytes_answers(
    alloc: Global,
    set: &ValueSet,
    texts: &TextCol,
) -> Result<Option<BoolCol>, NoMemory>
    ensures { IfOk result (λ made. IfSome made (λ truths. map bool_value truths ≡ map (answer_by (has set.now)) (map bytes_value texts.now))) }
{
    let mut built = BoolBuilder::with_capacity(alloc, texts.len())?;
    for i in 0..texts.len() {
        built.push(answer_bytes(set, texts.value_at(i)))?;
    }
    Ok(Some(built.finish()))
}
