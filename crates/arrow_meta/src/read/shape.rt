// What is known of a column from its field (Schema.fbs, `Field` and the union `Type`).
ghost use Rattle.std.specs.Prelude.{◌≡◌, IfOk, IfSome};
ghost use Rattle.arrow_meta.specs.Shapes as spec;
ghost use Rattle.arrow_meta.specs.Known.{IsShape};

use crate::read::look::{number, table};
use crate::{Layout, MetaError, Shape};
use fb_bytes::Table;
use sub_types::Kind;

// A type of whole numbers: its width in bits, and whether it has a sign.
#[derive(Clone, Copy, Debug)]
pub(crate) struct IntType {
    pub(crate) bits: u64,
    pub(crate) signed: bool,
}

// How a dictionary encodes a column: its id, and the type of the indices.
#[derive(Clone, Copy, Debug)]
pub(crate) struct Encoding {
    pub(crate) id: i64,
    pub(crate) index: IntType,
}

#[tactic(auto, unfolding(crate::specs::Shapes::int_in))]
fn int_type(int: &Table<'_>) -> Result<IntType, MetaError>
    ensures { result ≡ spec.int_in int.now }
{
    let bits = number(int, 0, 4, 0)?;
    let signed = number(int, 1, 1, 0)?;
    Ok(IntType {
        bits,
        signed: signed != 0,
    })
}

// The type of indices, signed ones of 32 bits where none is given.
fn index_type(int: Option<Table<'_>>) -> Result<IntType, MetaError>
    ensures { result ≡ spec.index_type int.entry }
{
    match int {
        None => Ok(IntType {
            bits: 32,
            signed: true,
        }),
        Some(int) => int_type(&int),
    }
}

#[tactic(auto, unfolding(crate::specs::Shapes::encoding_of))]
fn encoding_of(dictionary: &Table<'_>) -> Result<Encoding, MetaError>
    ensures { result ≡ spec.encoding_of dictionary.now }
{
    let id = number(dictionary, 0, 8, 0)?;
    let index = index_type(dictionary.table(1)?)?;
    Ok(Encoding {
        id: id.cast_signed(),
        index,
    })
}

// The encoding of a field, if it has a dictionary.
#[tactic(auto, unfolding(crate::specs::Shapes::encoding_in))]
fn field_encoding(field: &Table<'_>) -> Result<Option<Encoding>, MetaError>
    ensures { result ≡ spec.encoding_in field.now }
{
    match field.table(4)? {
        None => Ok(None),
        Some(dictionary) => Ok(Some(encoding_of(&dictionary)?)),
    }
}

const SKIPPED: Shape = Shape::Skip { buffers: 2 };

fn plain(kind: Kind) -> Shape
    ensures { result ≡ Shape.Known kind Layout.Plain }
{
    Shape::Known {
        kind,
        layout: Layout::Plain,
    }
}

fn wide(kind: Kind) -> Shape
    ensures { result ≡ Shape.Known kind Layout.Wide }
{
    Shape::Known {
        kind,
        layout: Layout::Wide,
    }
}

fn int_shape(int: IntType) -> Shape
    ensures shape { result ≡ spec.int_shape int }
    ensures sound { IsShape result }
{
    if !int.signed {
        return SKIPPED;
    }
    match int.bits {
        8 => plain(Kind::I8),
        16 => plain(Kind::I16),
        32 => plain(Kind::I32),
        64 => plain(Kind::I64),
        _ => SKIPPED,
    }
}

#[tactic(auto, unfolding(crate::specs::Shapes::number_shape))]
fn number_shape(int: &Table<'_>) -> Result<Shape, MetaError>
    ensures shape { result ≡ spec.number_shape int.now }
    ensures sound { IfOk result IsShape }
{
    Ok(int_shape(int_type(int)?))
}

#[tactic(auto, unfolding(crate::specs::Shapes::decimal_in))]
fn decimal_shape(decimal: &Table<'_>) -> Result<Shape, MetaError>
    ensures shape { result ≡ spec.decimal_in decimal.now }
    ensures sound { IfOk result IsShape }
{
    let precision = number(decimal, 0, 4, 0)?;
    let scale = number(decimal, 1, 4, 0)?;
    let bits = number(decimal, 2, 4, 128)?;
    if bits == 128 && 1 <= precision && precision <= 38 && scale <= precision {
        return Ok(plain(Kind::Decimal {
            precision: precision as u8,
            scale: scale as u8,
        }));
    }
    Ok(SKIPPED)
}

#[tactic(auto, unfolding(crate::specs::Shapes::date_in))]
fn date_shape(date: &Table<'_>) -> Result<Shape, MetaError>
    ensures shape { result ≡ spec.date_in date.now }
    ensures sound { IfOk result IsShape }
{
    let unit = number(date, 0, 2, 1)?;
    if unit == 0 {
        return Ok(plain(Kind::Date));
    }
    Ok(SKIPPED)
}

#[tactic(auto, unfolding(crate::specs::Shapes::timestamp_in))]
fn timestamp_shape(timestamp: &Table<'_>) -> Result<Shape, MetaError>
    ensures shape { result ≡ spec.timestamp_in timestamp.now }
    ensures sound { IfOk result IsShape }
{
    let unit = number(timestamp, 0, 2, 0)?;
    let has_zone = timestamp.text(1)?.is_some();
    if unit == 2 && !has_zone {
        return Ok(plain(Kind::Timestamp));
    }
    Ok(SKIPPED)
}

// The shape of a type whose table isn't looked at, or none where its buffers aren't counted.
fn tag_shape(tag: u64) -> Option<Shape>
    ensures shape { result ≡ spec.tag_shape tag }
    ensures sound { IfSome result IsShape }
{
    match tag {
        4 => Some(plain(Kind::Binary)),
        5 => Some(plain(Kind::Text)),
        6 => Some(plain(Kind::Bool)),
        19 => Some(wide(Kind::Binary)),
        20 => Some(wide(Kind::Text)),
        3 | 9 | 11 | 15 | 18 => Some(SKIPPED),
        _ => None,
    }
}

// The shape that the type alone gives.
#[tactic(auto, unfolding(crate::specs::Shapes::type_shape))]
fn type_shape(field: &Table<'_>, tag: u64) -> Result<Option<Shape>, MetaError>
    ensures shape { result ≡ spec.type_shape field.now tag }
    ensures sound { IfOk result (λ shape. IfSome shape IsShape) }
{
    if tag == 2 {
        let int = table(field, 3)?;
        return Ok(Some(number_shape(&int)?));
    }
    if tag == 7 {
        let decimal = table(field, 3)?;
        return Ok(Some(decimal_shape(&decimal)?));
    }
    if tag == 8 {
        let date = table(field, 3)?;
        return Ok(Some(date_shape(&date)?));
    }
    if tag == 10 {
        let timestamp = table(field, 3)?;
        return Ok(Some(timestamp_shape(&timestamp)?));
    }
    Ok(tag_shape(tag))
}

fn index_shape(encoding: Encoding, wide: bool) -> Shape
    ensures shape { result ≡ spec.index_shape encoding wide }
    ensures sound { IsShape result }
{
    let bits = encoding.index.bits;
    if bits == 8 || bits == 16 || bits == 32 || bits == 64 {
        return Shape::Known {
            kind: Kind::Text,
            layout: Layout::Index {
                id: encoding.id,
                width: (bits / 8) as u8,
                signed: encoding.index.signed,
                wide,
            },
        };
    }
    SKIPPED
}

fn encoded_shape(tag: u64, encoding: Encoding) -> Shape
    ensures shape { result ≡ spec.encoded_shape tag encoding }
    ensures sound { IsShape result }
{
    match tag {
        5 => index_shape(encoding, false),
        20 => index_shape(encoding, true),
        _ => SKIPPED,
    }
}

/// What is known of a column from its field, or none where its buffers aren't counted.
#[tactic(auto, unfolding(crate::specs::Shapes::shape_in))]
pub(crate) fn shape(field: &Table<'_>) -> Result<Option<Shape>, MetaError>
    ensures shape { result ≡ spec.shape_in field.now }
    ensures sound { IfOk result (λ shape. IfSome shape IsShape) }
{
    let tag = number(field, 2, 1, 0)?;
    let shape = type_shape(field, tag)?;
    let encoding = field_encoding(field)?;
    match (shape, encoding) {
        (None, _) => Ok(None),
        (Some(shape), None) => Ok(Some(shape)),
        (Some(_), Some(encoding)) => Ok(Some(encoded_shape(tag, encoding))),
    }
}
