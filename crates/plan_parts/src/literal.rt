// Literals (Substrait `Expression.Literal`) and rows of them.
ghost use Rattle.std.specs.Prelude.{◌≡◌, IfOk};
ghost use Rattle.pb_wire.specs.Payloads.{fields_of};
ghost use Rattle.plan_scan.specs.Table.{HoldsMessage};
ghost use Rattle.plan_parts.specs.Shapes.{child, children};
ghost use Rattle.plan_parts.specs.Types.{decimal_of, decimal_in, null_by, literal_member, literal_by};
ghost use Rattle.plan_parts.specs.Rels.{literal_row_by};
ghost use Rattle.plan_parts.specs.Reader.{reader};

use crate::types::type_at;
use plan_leaves::{Items, LiteralRow, RawLiteral};
use plan_scan::{Message, OneOf, Shape, field};
use std::alloc::Global;
use sub_types::NoMemory;

/// The literal in a field of a message, or `None` where it is absent.
pub fn literal_at(
    alloc: Global,
    message: &Message<'_>,
    number: u32,
) -> Result<Option<RawLiteral>, NoMemory>
    requires { HoldsMessage message.now.shape number Shape.Literal }
    ensures { IfOk result (λ literal. literal ≡ child (reader message.now.below) Shape.Literal number (fields_of message.now.bytes)) }
{
    match message.merged(alloc, number, Shape::Literal)? {
        None => Ok(None),
        Some(found) => Ok(Some(literal_of(alloc, &found.message())?)),
    }
}

/// The rows of literals in a field of a message.
pub fn literal_rows_at(
    alloc: Global,
    message: &Message<'_>,
    number: u32,
) -> Result<Items<LiteralRow>, NoMemory>
    requires { HoldsMessage message.now.shape number Shape.LiteralRow }
    ensures { IfOk result (λ rows. rows ≡ children (reader message.now.below) Shape.LiteralRow number (fields_of message.now.bytes)) }
{
    let mut rows = Vec::new(alloc);
    let mut left = message.children(number, Shape::LiteralRow);
    while let Some(row) = left.next() {
        rows.push(literal_row(alloc, &row)?)?;
    }
    Ok(Items::from_vec(rows))
}

fn literal_row(alloc: Global, message: &Message<'_>) -> Result<LiteralRow, NoMemory>
    requires { message.now.shape ≡ Shape.LiteralRow }
    ensures { IfOk result (λ row. row ≡ literal_row_by (reader message.now.below) (fields_of message.now.bytes)) }
{
    let mut fields = Vec::new(alloc);
    let mut left = message.children(field::literal_row::FIELDS, Shape::Literal);
    while let Some(field) = left.next() {
        fields.push(literal_of(alloc, &field)?)?;
    }
    Ok(LiteralRow {
        fields: Items::from_vec(fields),
    })
}

/// A `Literal`.
pub fn literal_of(alloc: Global, message: &Message<'_>) -> Result<RawLiteral, NoMemory>
    requires { message.now.shape ≡ Shape.Literal }
    ensures { IfOk result (λ literal. literal ≡ literal_by (reader message.now.below) (fields_of message.now.bytes)) }
{
    let nullable = message.boolean(field::literal::NULLABLE);
    match message.oneof(OneOf::LiteralType) {
        None => Ok(RawLiteral::Missing),
        Some((number, won)) => member(alloc, number, &won, nullable),
    }
}

fn member(
    alloc: Global,
    number: u32,
    won: &Message<'_>,
    nullable: bool,
) -> Result<RawLiteral, NoMemory>
    requires { won.now.shape ≡ Shape.Literal }
    ensures { IfOk result (λ literal. literal ≡ literal_member (reader won.now.below) nullable number (fields_of won.now.bytes)) }
{
    match number {
        field::literal::BOOLEAN => Ok(RawLiteral::Boolean {
            value: won.boolean(field::literal::BOOLEAN),
            nullable,
        }),
        field::literal::I8 => Ok(RawLiteral::I8 {
            value: won.int32(field::literal::I8),
            nullable,
        }),
        field::literal::I16 => Ok(RawLiteral::I16 {
            value: won.int32(field::literal::I16),
            nullable,
        }),
        field::literal::I32 => Ok(RawLiteral::I32 {
            value: won.int32(field::literal::I32),
            nullable,
        }),
        field::literal::I64 => Ok(RawLiteral::I64 {
            value: won.int64(field::literal::I64),
            nullable,
        }),
        field::literal::STRING => Ok(RawLiteral::String {
            value: won.text(alloc, field::literal::STRING)?,
            nullable,
        }),
        field::literal::BINARY => Ok(RawLiteral::Binary {
            value: won.byte_list(alloc, field::literal::BINARY)?,
            nullable,
        }),
        field::literal::TIMESTAMP => Ok(RawLiteral::Timestamp {
            value: won.int64(field::literal::TIMESTAMP),
            nullable,
        }),
        field::literal::DATE => Ok(RawLiteral::Date {
            value: won.int32(field::literal::DATE),
            nullable,
        }),
        field::literal::DECIMAL => decimal_at(alloc, won, nullable),
        field::literal::NULL => null_at(alloc, won, nullable),
        _ => Ok(RawLiteral::Unknown { number }),
    }
}

fn decimal_at(alloc: Global, won: &Message<'_>, nullable: bool) -> Result<RawLiteral, NoMemory>
    requires { won.now.shape ≡ Shape.Literal }
    ensures { IfOk result (λ literal. literal ≡ decimal_in nullable (fields_of won.now.bytes)) }
{
    match won.merged(alloc, field::literal::DECIMAL, Shape::DecimalLiteral)? {
        None => Ok(RawLiteral::Missing),
        Some(found) => decimal(alloc, &found.message(), nullable),
    }
}

fn decimal(alloc: Global, message: &Message<'_>, nullable: bool) -> Result<RawLiteral, NoMemory>
    ensures { IfOk result (λ literal. literal ≡ decimal_of nullable (fields_of message.now.bytes)) }
{
    Ok(RawLiteral::Decimal {
        value: message.byte_list(alloc, field::decimal_literal::VALUE)?,
        precision: message.int32(field::decimal_literal::PRECISION),
        scale: message.int32(field::decimal_literal::SCALE),
        nullable,
    })
}

fn null_at(alloc: Global, won: &Message<'_>, nullable: bool) -> Result<RawLiteral, NoMemory>
    requires { won.now.shape ≡ Shape.Literal }
    ensures { IfOk result (λ literal. literal ≡ null_by (reader won.now.below) nullable (fields_of won.now.bytes)) }
{
    match type_at(alloc, won, field::literal::NULL)? {
        None => Ok(RawLiteral::Missing),
        Some(type_) => Ok(RawLiteral::Null { type_, nullable }),
    }
}
