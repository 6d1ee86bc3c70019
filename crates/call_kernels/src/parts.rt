// Parts of texts of ASCII, whose characters are their bytes.
ghost use Rattle.std.specs.Prelude.{◌≡◌, ◌<◌, [], ℕ, suc, pos, true, length, map, replicate, take, drop, IfOk, IfSome, option_copied, option_map};
ghost use Rattle.std.specs.List.{concat};
ghost use Rattle.std.specs.Str.{IsAscii};
ghost use Rattle.sub_types.specs.Nullable.{bytes_value};
ghost use Rattle.sub_types.specs.Slots.{slots};
ghost use Rattle.sub_types.specs.Value.{InKind};
ghost use Rattle.sub_types.specs.declared.kind.Kind.TheVariants as kinds;
ghost use Rattle.sub_types.specs.declared.value.Value.TheVariants as worth;
ghost use Rattle.batch.specs.ColumnValues.{values_of};
ghost use Rattle.kernels.specs.declared.selection.Stop.TheVariants as stops;
ghost use Rattle.call_kernels.specs.Made.{IsMade, at_three};
ghost use Rattle.call_kernels.specs.Operand.{values};
ghost use Rattle.call_kernels.specs.Parts as spec;

use crate::Operand;
use batch::{Column, ColumnData};
use col_text::{TextBuilder, TextCol};
use std::alloc::Global;
use sub_types::{Kind, NoMemory, Ty, Value};

/// The parts of a column of texts that are ASCII: from a character on, counted from 1, so many characters.
pub(crate) fn substring_constants(
    alloc: Global,
    ty: Ty,
    a: Operand<'_>,
    start: &Value,
    count: &Value,
    n: usize,
) -> Result<Option<Column>, NoMemory>
    requires a { length (values n a) ≡ n }
    requires in_kind { (i : ℕ) → i < n → IfOk (at_three spec.part_from (values n a) (replicate n start.now) (replicate n count.now) i) (InKind ty.kind) }
    ensures { IfOk result (λ found. IfSome found (λ column. IsMade (at_three spec.part_from (values n a.entry) (replicate n start.now) (replicate n count.now)) n ty column stops.Never)) }
{
    let Some(before) = before_start(start) else {
        return Ok(None);
    };
    let Some(most) = count_of(count) else {
        return Ok(None);
    };
    match a {
        Operand::Column(column) => {
            parts_of_column(alloc, ty, column, start, count, before, most, n)
        }
        Operand::Constant(_) => Ok(None),
    }
}

/// The same of a column, where the start and the number of characters are known.
fn parts_of_column(
    alloc: Global,
    ty: Ty,
    column: &Column,
    start: &Value,
    count: &Value,
    before: usize,
    most: usize,
    n: usize,
) -> Result<Option<Column>, NoMemory>
    requires start { start.now ≡ worth.Int (pos (suc before)) }
    requires count { count.now ≡ worth.Int (pos most) }
    requires long { length (values_of column.now.values) ≡ n }
    requires in_kind { (i : ℕ) → i < n → IfOk (at_three spec.part_from (values_of column.now.values) (replicate n start.now) (replicate n count.now) i) (InKind ty.kind) }
    ensures { IfOk result (λ found. IfSome found (λ made. IsMade (at_three spec.part_from (values_of column.now.values) (replicate n start.now) (replicate n count.now)) n ty made stops.Never)) }
{
    match ty.kind {
        Kind::Text => match &column.values {
            ColumnData::Bytes(all) => {
                parts_of_ascii(alloc, ty, all, start, count, before, most, n)
            }
            _ => Ok(None),
        },
        _ => Ok(None),
    }
}

/// The same of texts, where all of them are ASCII.
fn parts_of_ascii(
    alloc: Global,
    ty: Ty,
    all: &TextCol,
    start: &Value,
    count: &Value,
    before: usize,
    most: usize,
    n: usize,
) -> Result<Option<Column>, NoMemory>
    requires kind { ty.kind ≡ kinds.Text }
    requires start { start.now ≡ worth.Int (pos (suc before)) }
    requires count { count.now ≡ worth.Int (pos most) }
    requires long { length (map bytes_value all.now) ≡ n }
    requires in_kind { (i : ℕ) → i < n → IfOk (at_three spec.part_from (map bytes_value all.now) (replicate n start.now) (replicate n count.now) i) (InKind ty.kind) }
    ensures { IfOk result (λ found. IfSome found (λ made. IsMade (at_three spec.part_from (map bytes_value all.now) (replicate n start.now) (replicate n count.now)) n ty made stops.Never)) }
{
    if !are_ascii(all) {
        return Ok(None);
    }
    let parts = parts_of(alloc, all, before, most)?;
    let column = Column {
        ty,
        values: ColumnData::Bytes(parts),
    };
    Ok(Some(column))
}

/// Whether all bytes of a column are ASCII.
fn are_ascii(all: &TextCol) -> bool
    ensures { result ≡ true → IsAscii (concat (slots [] all.now)) }
{
    all.bytes().is_ascii()
}

/// How many characters stand before a start, if it is one.
fn before_start(start: &Value) -> Option<usize>
    ensures { IfSome result (λ before. start.now ≡ worth.Int (pos (suc before))) }
{
    match start {
        Value::Int(start) if *start >= 1 => Some((*start - 1) as usize),
        _ => None,
    }
}

/// A number of characters, if it isn't below 0.
fn count_of(count: &Value) -> Option<usize>
    ensures { IfSome result (λ n. count.now ≡ worth.Int (pos n)) }
{
    match count {
        Value::Int(count) if *count >= 0 => Some(*count as usize),
        _ => None,
    }
}

/// Of each text the bytes behind the first so many: at most this number.
fn parts_of(alloc: Global, all: &TextCol, before: usize, most: usize) -> Result<TextCol, NoMemory>
    ensures { IfOk result (λ parts. parts ≡ map (option_map (λ text. take most (drop before text))) all.now) }
{
    let mut parts = TextBuilder::with_capacity(alloc, all.len(), 0)?;
    for i in 0..all.len() {
        parts.push(part_if(all.value_at(i), before, most))?;
    }
    Ok(parts.finish())
}

fn part_if(text: Option<&[u8]>, before: usize, most: usize) -> Option<&[u8]>
    ensures { option_copied result ≡ option_map (λ text. take most (drop before text)) (option_copied text.entry) }
{
    match text {
        Some(text) => Some(part(text, before, most)),
        None => None,
    }
}

fn part(text: &[u8], before: usize, most: usize) -> &[u8]
    ensures { result.now ≡ take most (drop before text.now) }
{
    let rest = &text[before.min(text.len())..];
    &rest[..most.min(rest.len())]
}
