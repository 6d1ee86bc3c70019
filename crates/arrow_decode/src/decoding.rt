// Raw batches, decoded.
ghost use Rattle.std.specs.Prelude.{◌≡◌, ◌<◌, ◌^◌, Some, None, Err, true, ◌∷◌, length, map, IfOk, IfSome, option_copied};
ghost use Rattle.std.specs.List.{All, sum};
ghost use Rattle.std.specs.Option.{option_map, ForSome};
ghost use Rattle.sub_types.specs.Kind.{IsKind};
ghost use Rattle.sub_types.specs.Value.{InKind};
ghost use Rattle.arrow_meta.specs.Known.{IsLayout};
ghost use Rattle.arrow_meta.specs.Batch.{column_in, columns_in, rows_in};
ghost use Rattle.arrow_meta.specs.Values.{values_in};
ghost use Rattle.arrow_meta.specs.Table.{dictionary_of};
ghost use Rattle.batch.specs.BatchRows.{rows_of, types_of};
ghost use Rattle.batch.specs.Column.{column_values as values_in_column, column_type};
ghost use Rattle.batch.specs.ColumnValues.{values_of, storage_of, kind_storage};
ghost use Rattle.arrow_decode.specs.Buffers.{last_seen};
ghost use Rattle.arrow_decode.specs.Dictionary.{AreTexts};
ghost use Rattle.arrow_decode.specs.RawColumn.{IsWanted};
ghost use Rattle.arrow_decode.specs.Seen.{dictionary_seen, wanted_with, wanted_type};

use crate::buffer::validity;
use crate::column::column_values;
use crate::extents::{column_buffers, row_count};
use crate::{DictColumn, Raw, RawError};
use arrow_meta::{Layout, RecordMeta};
use batch::{Batch, Column, ColumnData};
use col_text::TextCol;
use std::alloc::Global;
use sub_types::{Bits, Kind, NoMemory, Ty};

/// The wanted columns of a raw batch as a batch with number 0, in which nulls may stand everywhere (Arrow
/// columnar format, "RecordBatch message"). A column of indices takes its values from its dictionary; it is
/// bad where that is bad or isn't among `dictionaries`.
#[tactic(auto, unfolding(arrow_meta::specs::Batch::rows_in))]
pub fn decode(alloc: Global, dictionaries: &[DictColumn], raw: &Raw) -> Result<Batch, RawError>
    ensures rows { IfOk result (λ batch. rows_in raw.now.shapes.items raw.now.meta raw.now.body.items
        (map (wanted_with dictionaries.now) raw.now.columns.items) ≡ Some (rows_of batch)) }
    ensures types { IfOk result (λ batch. types_of batch ≡ map wanted_type raw.now.columns.items) }
    ensures number { IfOk result (λ batch. batch.number ≡ 0) }
    ensures bad { result ≡ Err RawError.BadBatch → rows_in raw.now.shapes.items raw.now.meta raw.now.body.items
        (map (wanted_with dictionaries.now) raw.now.columns.items) ≡ None }
{
    let Some(count) = row_count(&raw.shapes, &raw.meta) else {
        return Err(RawError::BadBatch);
    };
    let columns = wanted_columns(
        alloc,
        dictionaries,
        &raw.shapes,
        &raw.meta,
        &raw.body,
        count,
        &raw.columns,
    )?;
    let Some(columns) = columns else {
        return Err(RawError::BadBatch);
    };
    Ok(Batch {
        number: 0,
        rows: count as u64,
        columns,
    })
}

// The wanted columns, or none where one is bad.
#[tactic(auto, unfolding(arrow_meta::specs::Batch::columns_in))]
fn wanted_columns(
    alloc: Global,
    dictionaries: &[DictColumn],
    shapes: &[u8],
    meta: &RecordMeta,
    body: &[u8],
    count: usize,
    wanted: &[(u32, Kind, Layout)],
) -> Result<Option<Vec<Column>>, NoMemory>
    requires wanted { All (IsWanted shapes.now) wanted.now }
    requires nodes { length meta.now.nodes ≡ length shapes.now }
    requires buffers { length meta.now.buffers ≡ sum shapes.now }
    requires few { count < 2 ^ 31 }
    ensures columns { IfOk result (λ found. option_map (λ columns. map values_in_column columns.items) found
        ≡ columns_in shapes.now meta.now body.now count (map (wanted_with dictionaries.now) wanted.now)) }
    ensures types { IfOk result (λ found. IfSome found (λ columns. map column_type columns.items ≡ map wanted_type wanted.now)) }
    ensures long { IfOk result (λ found. IfSome found (λ columns. All (λ column. length (values_of column.values) ≡ count) columns.items)) }
{
    let mut columns = Vec::new(alloc);
    for one in wanted {
        let column = wanted_column(alloc, dictionaries, shapes, meta, body, count, one)?;
        let Some(column) = column else {
            return Ok(None);
        };
        columns.push(column)?;
    }
    Ok(Some(columns))
}

// A wanted column, or none where it is bad.
#[tactic(auto, unfolding(arrow_meta::specs::Batch::column_in))]
fn wanted_column(
    alloc: Global,
    dictionaries: &[DictColumn],
    shapes: &[u8],
    meta: &RecordMeta,
    body: &[u8],
    count: usize,
    wanted: &(u32, Kind, Layout),
) -> Result<Option<Column>, NoMemory>
    requires wanted { IsWanted shapes.now wanted.now }
    requires nodes { length meta.now.nodes ≡ length shapes.now }
    requires buffers { length meta.now.buffers ≡ sum shapes.now }
    requires few { count < 2 ^ 31 }
    ensures values { IfOk result (λ found. option_map values_in_column found
        ≡ column_in shapes.now meta.now body.now count (wanted_with dictionaries.now wanted.now)) }
    ensures ty { IfOk result (λ found. IfSome found (λ column. column.ty ≡ wanted_type wanted.now)) }
    ensures long { IfOk result (λ found. IfSome found (λ column. length (values_of column.values) ≡ count)) }
{
    let (place, kind, layout) = *wanted;
    let Some(buffers) = column_buffers(shapes, meta, body, count, place as usize) else {
        return Ok(None);
    };
    let Some(valid) = validity(alloc, count, buffers.validity)? else {
        return Ok(None);
    };
    let dictionary = find_dictionary(dictionaries, place);
    typed_column(
        alloc,
        kind,
        layout,
        dictionary,
        count,
        valid,
        buffers.first,
        buffers.second,
    )
}

// A column of a kind from the buffers behind its validity.
fn typed_column(
    alloc: Global,
    kind: Kind,
    layout: Layout,
    dictionary: Option<&TextCol>,
    count: usize,
    valid: Bits,
    first: &[u8],
    second: Option<&[u8]>,
) -> Result<Option<Column>, NoMemory>
    requires long { length valid ≡ count }
    requires few { count < 2 ^ 31 }
    requires kind { IsKind kind }
    requires layout { IsLayout kind layout }
    requires texts { ForSome (option_copied dictionary) AreTexts }
    ensures values { IfOk result (λ found. option_map values_in_column found
        ≡ values_in kind layout (option_copied dictionary.entry) count valid (first.now ∷ last_seen second.entry)) }
    ensures ty { IfOk result (λ found. IfSome found (λ column. column.ty ≡ record { kind = kind; nullable = true })) }
    ensures long { IfOk result (λ found. IfSome found (λ column. length (values_of column.values) ≡ count)) }
{
    let Some(values) = column_values(alloc, kind, layout, dictionary, count, valid, first, second)?
    else {
        return Ok(None);
    };
    Ok(Some(Column {
        ty: Ty {
            kind,
            nullable: true,
        },
        values,
    }))
}

// The dictionary of a column, if it is there and isn't bad.
fn find_dictionary(dictionaries: &[DictColumn], column: u32) -> Option<&TextCol>
    ensures found { option_copied result ≡ dictionary_of (map dictionary_seen dictionaries.now) column }
    ensures texts { ForSome (option_copied result) AreTexts }
{
    for dictionary in dictionaries {
        if dictionary.column == column {
            return dictionary.values.as_ref();
        }
    }
    None
}
