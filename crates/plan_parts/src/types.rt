// Types (Substrait `Type`).
ghost use Rattle.std.specs.Prelude.{◌≡◌, IfOk};
ghost use Rattle.pb_wire.specs.Payloads.{fields_of};
ghost use Rattle.plan_scan.specs.Table.{HoldsMessage};
ghost use Rattle.plan_parts.specs.Words.{part};
ghost use Rattle.plan_parts.specs.Shapes.{child, children};
ghost use Rattle.plan_parts.specs.Types.{nullability_of, decimal_type_of, decimal_type_in, struct_type_by, type_member, type_by};
ghost use Rattle.plan_parts.specs.Reader.{reader};

use plan_leaves::{Items, RawType, StructType};
use plan_scan::{Message, OneOf, Shape, field};
use std::alloc::Global;
use sub_types::NoMemory;

/// The type in a field of a message, or `None` where it is absent.
pub fn type_at(
    alloc: Global,
    message: &Message<'_>,
    number: u32,
) -> Result<Option<RawType>, NoMemory>
    requires { HoldsMessage message.now.shape number Shape.DataType }
    ensures { IfOk result (λ ty. ty ≡ child (reader message.now.below) Shape.DataType number (fields_of message.now.bytes)) }
{
    match message.merged(alloc, number, Shape::DataType)? {
        None => Ok(None),
        Some(ty) => Ok(Some(data_type(alloc, &ty.message())?)),
    }
}

/// The struct of types in a field of a message, or `None` where it is absent.
pub fn struct_type_at(
    alloc: Global,
    message: &Message<'_>,
    number: u32,
) -> Result<Option<StructType>, NoMemory>
    requires { HoldsMessage message.now.shape number Shape.StructType }
    ensures { IfOk result (λ ty. ty ≡ child (reader message.now.below) Shape.StructType number (fields_of message.now.bytes)) }
{
    match message.merged(alloc, number, Shape::StructType)? {
        None => Ok(None),
        Some(ty) => Ok(Some(struct_type(alloc, &ty.message())?)),
    }
}

#[cycle(types)]
fn data_type(alloc: Global, message: &Message<'_>) -> Result<RawType, NoMemory>
    requires { message.now.shape ≡ Shape.DataType }
    ensures { IfOk result (λ ty. ty ≡ type_by (reader message.now.below) (fields_of message.now.bytes)) }
{
    match message.oneof(OneOf::TypeKind) {
        None => Ok(RawType::Missing),
        Some((number, won)) => member(alloc, number, &won),
    }
}

#[cycle(types)]
fn member(alloc: Global, number: u32, won: &Message<'_>) -> Result<RawType, NoMemory>
    requires { won.now.shape ≡ Shape.DataType }
    ensures { IfOk result (λ ty. ty ≡ type_member (reader won.now.below) number (fields_of won.now.bytes)) }
{
    match number {
        field::data_type::BOOL => Ok(RawType::Bool {
            nullability: nullability_at(alloc, won, field::data_type::BOOL)?,
        }),
        field::data_type::I8 => Ok(RawType::I8 {
            nullability: nullability_at(alloc, won, field::data_type::I8)?,
        }),
        field::data_type::I16 => Ok(RawType::I16 {
            nullability: nullability_at(alloc, won, field::data_type::I16)?,
        }),
        field::data_type::I32 => Ok(RawType::I32 {
            nullability: nullability_at(alloc, won, field::data_type::I32)?,
        }),
        field::data_type::I64 => Ok(RawType::I64 {
            nullability: nullability_at(alloc, won, field::data_type::I64)?,
        }),
        field::data_type::STRING => Ok(RawType::String {
            nullability: nullability_at(alloc, won, field::data_type::STRING)?,
        }),
        field::data_type::BINARY => Ok(RawType::Binary {
            nullability: nullability_at(alloc, won, field::data_type::BINARY)?,
        }),
        field::data_type::TIMESTAMP => Ok(RawType::Timestamp {
            nullability: nullability_at(alloc, won, field::data_type::TIMESTAMP)?,
        }),
        field::data_type::DATE => Ok(RawType::Date {
            nullability: nullability_at(alloc, won, field::data_type::DATE)?,
        }),
        field::data_type::DECIMAL => decimal_type_at(alloc, won),
        field::data_type::STRUCT => match won.merged(
            alloc,
            field::data_type::STRUCT,
            Shape::StructType,
        )? {
            None => Ok(RawType::Missing),
            Some(inner) => Ok(RawType::Struct {
                types: struct_type(alloc, &inner.message())?.types,
            }),
        },
        _ => Ok(RawType::Unknown { number }),
    }
}

#[cycle(types)]
fn struct_type(alloc: Global, message: &Message<'_>) -> Result<StructType, NoMemory>
    requires { message.now.shape ≡ Shape.StructType }
    ensures { IfOk result (λ ty. ty ≡ struct_type_by (reader message.now.below) (fields_of message.now.bytes)) }
{
    let mut types = Vec::new(alloc);
    let mut left = message.children(field::struct_type::TYPES, Shape::DataType);
    while let Some(ty) = left.next() {
        types.push(data_type(alloc, &ty)?)?;
    }
    Ok(StructType {
        types: Items::from_vec(types),
    })
}

fn nullability_at(alloc: Global, won: &Message<'_>, number: u32) -> Result<u32, NoMemory>
    requires { HoldsMessage won.now.shape number Shape.PlainType }
    ensures { IfOk result (λ nullability. nullability ≡ nullability_of number (fields_of won.now.bytes)) }
{
    match won.merged(alloc, number, Shape::PlainType)? {
        None => Ok(0),
        Some(plain) => Ok(plain.message().uint32(field::plain_type::NULLABILITY)),
    }
}

fn decimal_type_at(alloc: Global, won: &Message<'_>) -> Result<RawType, NoMemory>
    requires { won.now.shape ≡ Shape.DataType }
    ensures { IfOk result (λ ty. ty ≡ decimal_type_in (fields_of won.now.bytes)) }
{
    match won.merged(alloc, field::data_type::DECIMAL, Shape::DecimalType)? {
        None => Ok(RawType::Missing),
        Some(decimal) => Ok(decimal_type(&decimal.message())),
    }
}

fn decimal_type(message: &Message<'_>) -> RawType
    ensures { result ≡ decimal_type_of (fields_of message.now.bytes) }
{
    RawType::Decimal {
        scale: message.int32(field::decimal_type::SCALE),
        precision: message.int32(field::decimal_type::PRECISION),
        nullability: message.uint32(field::decimal_type::NULLABILITY),
    }
}
