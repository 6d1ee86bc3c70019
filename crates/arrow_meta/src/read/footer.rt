// The footer of a file, read (File.fbs, `Footer`).
ghost use Rattle.std.specs.Prelude.{◌≡◌, ◌<◌, ◌^◌, length, IsOk, IfOk, IfSome, IfErr, Err, vec_len};
ghost use Rattle.std.specs.List.{All};
ghost use Rattle.arrow_meta.specs.Known.{IsShape};
ghost use Rattle.arrow_meta.specs.Looked.{Answers};
ghost use Rattle.arrow_meta.specs.Footer as spec;
ghost use Rattle.arrow_meta.specs.Seen.{field_read, footer_seen, items_of, fields_of, columns_of};

use crate::read::block::blocks;
use crate::read::look::{number, table};
use crate::read::shape::shape;
use crate::{Block, Columns, FieldMeta, MetaError, Schema, Shape};
use fb_bytes::{FbVector, Table};
use std::alloc::Global;
use sub_types::ByteList;

// A field, whose type may be one whose buffers aren't counted.
#[derive(Clone, Copy, Debug)]
pub(crate) struct FieldRead<'a> {
    pub(crate) name: &'a [u8],
    pub(crate) nullable: bool,
    pub(crate) shape: Option<Shape>,
}

/// What a footer says: the schema, the blocks of the dictionaries, and those of the record batches (Arrow
/// columnar format, "IPC File Format"). No memory is taken for a count before the bytes hold so many.
#[tactic(auto, unfolding(crate::specs::Footer::footer_in))]
pub fn read_footer(
    alloc: Global,
    bytes: &[u8],
) -> Result<(Schema, Vec<Block>, Vec<Block>), MetaError>
    requires { length bytes.now < 2 ^ 31 }
    ensures footer { Answers footer_seen result (spec.footer_in bytes.now) }
    ensures shapes { IfOk result (λ read. All (λ field. IsShape field.shape) read.0.columns) }
    ensures few_columns { IfOk result (λ read. length read.0.columns < 2 ^ 32) }
    ensures few_dictionaries { IfOk result (λ read. vec_len read.1 < 2 ^ 27) }
    ensures few_records { IfOk result (λ read. vec_len read.2 < 2 ^ 27) }
{
    let footer = Table::root(bytes)?;
    let version = number(&footer, 0, 2, 0)?;
    if version != 3 && version != 4 {
        return Err(MetaError::Bad);
    }
    let schema = table(&footer, 1)?;
    let fields = readable_fields(&schema)?;
    let dictionaries = blocks(alloc, &footer, 2)?;
    let records = blocks(alloc, &footer, 3)?;
    let columns = columns(alloc, &fields)?;
    Ok((
        Schema {
            columns: Columns::from_vec(columns),
        },
        dictionaries,
        records,
    ))
}

// The fields of a little-endian schema, each of which can be read.
#[tactic(auto, unfolding(crate::specs::Footer::fields_in))]
fn readable_fields<'a>(schema: &Table<'a>) -> Result<Option<FbVector<'a>>, MetaError>
    ensures fields { IfOk result (λ fields. spec.fields_in schema.now ≡ fields_of fields) }
    ensures readable { IfOk result (λ fields. IsOk (fields_of fields)) }
    ensures offsets { IfOk result (λ fields. IfSome fields (λ vector. vector.width ≡ 4)) }
    ensures err { IfErr result (λ e. spec.fields_in schema.now ≡ Err e) }
{
    let endianness = number(schema, 0, 2, 0)?;
    if endianness != 0 {
        return Err(MetaError::Bad);
    }
    let fields = schema.vector(1, 4)?;
    if let Some(vector) = &fields {
        check_fields(vector)?;
    }
    Ok(fields)
}

// Looks at each field.
fn check_fields(fields: &FbVector<'_>) -> Result<(), MetaError>
    requires { fields.now.width ≡ 4 }
    ensures readable { IfOk result (λ _. IsOk (items_of fields.now)) }
    ensures err { IfErr result (λ e. items_of fields.now ≡ Err e) }
{
    for i in 0..fields.len() {
        let _field = field_at(fields, i)?;
    }
    Ok(())
}

// The field that an element leads to.
#[tactic(auto, unfolding(crate::specs::Footer::field_at))]
fn field_at<'a>(fields: &FbVector<'a>, i: u32) -> Result<FieldRead<'a>, MetaError>
    requires within { i < fields.now.count }
    requires offsets { fields.now.width ≡ 4 }
    ensures field { field_read result ≡ spec.field_at fields.now i }
    ensures sound { IfOk result (λ field. IfSome field.shape IsShape) }
{
    let found = fields.table_at(i)?;
    field(&found)
}

#[tactic(auto, unfolding(crate::specs::Footer::field_in))]
fn field<'a>(found: &Table<'a>) -> Result<FieldRead<'a>, MetaError>
    ensures field { field_read result ≡ spec.field_in found.now }
    ensures sound { IfOk result (λ field. IfSome field.shape IsShape) }
{
    let name = found.text(0)?.unwrap_or(&[]);
    let nullable = number(found, 1, 1, 0)?;
    let shape = shape(found)?;
    Ok(FieldRead {
        name,
        nullable: nullable != 0,
        shape,
    })
}

// The columns of fields that can be read, unless the type of one isn't supported.
fn columns(alloc: Global, fields: &Option<FbVector<'_>>) -> Result<Vec<FieldMeta>, MetaError>
    requires readable { IsOk (fields_of fields.now) }
    requires offsets { IfSome fields.now (λ vector. vector.width ≡ 4) }
    ensures columns { Answers (λ columns. columns.items) result (columns_of (fields_of fields.now)) }
    ensures shapes { IfOk result (λ columns. All (λ field. IsShape field.shape) columns.items) }
    ensures few { IfOk result (λ columns. vec_len columns < 2 ^ 32) }
{
    match fields {
        None => Ok(Vec::new(alloc)),
        Some(vector) => vector_columns(alloc, vector),
    }
}

fn vector_columns(alloc: Global, fields: &FbVector<'_>) -> Result<Vec<FieldMeta>, MetaError>
    requires readable { IsOk (items_of fields.now) }
    requires offsets { fields.now.width ≡ 4 }
    ensures columns { Answers (λ columns. columns.items) result (columns_of (items_of fields.now)) }
    ensures shapes { IfOk result (λ columns. All (λ field. IsShape field.shape) columns.items) }
    ensures few { IfOk result (λ columns. vec_len columns < 2 ^ 32) }
{
    let mut columns = Vec::new(alloc);
    for i in 0..fields.len() {
        let field = field_at(fields, i)?;
        let Some(shape) = field.shape else {
            return Err(MetaError::Unsupported { column: i });
        };
        columns.push(FieldMeta {
            name: ByteList::of(alloc, field.name)?,
            nullable: field.nullable,
            shape,
        })?;
    }
    Ok(columns)
}
