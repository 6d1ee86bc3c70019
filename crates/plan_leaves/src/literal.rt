// Literals as they are written (Substrait `Expression.Literal`).
use crate::{CopyIn, Items, RawType};
use std::alloc::Global;
use sub_types::{ByteList, NoMemory, Word};

/// An `Expression.Literal`; `nullable` stands beside each member.
#[derive(Drop)]
pub enum RawLiteral {
    Missing,
    Unknown {
        number: u32,
    },
    Boolean {
        value: bool,
        nullable: bool,
    },
    I8 {
        value: i32,
        nullable: bool,
    },
    I16 {
        value: i32,
        nullable: bool,
    },
    I32 {
        value: i32,
        nullable: bool,
    },
    I64 {
        value: i64,
        nullable: bool,
    },
    String {
        value: Word,
        nullable: bool,
    },
    Binary {
        value: ByteList,
        nullable: bool,
    },
    /// Microseconds since 1970-01-01, without a zone.
    Timestamp {
        value: i64,
        nullable: bool,
    },
    /// Days since 1970-01-01.
    Date {
        value: i32,
        nullable: bool,
    },
    /// The value is 16 bytes where it is well written, little-endian two's complement.
    Decimal {
        value: ByteList,
        precision: i32,
        scale: i32,
        nullable: bool,
    },
    /// Null of a type.
    Null {
        type_: RawType,
        nullable: bool,
    },
}

/// An `Expression.Literal.Struct`.
#[derive(Drop)]
pub struct LiteralRow {
    pub fields: Items<RawLiteral>,
}

impl CopyIn for RawLiteral {
    fn copy_in(&self, alloc: Global) -> Result<Self, NoMemory> {
        match self {
            RawLiteral::Missing => Ok(RawLiteral::Missing),
            RawLiteral::Unknown { number } => Ok(RawLiteral::Unknown { number: *number }),
            RawLiteral::Boolean { value, nullable } => Ok(RawLiteral::Boolean {
                value: *value,
                nullable: *nullable,
            }),
            RawLiteral::I8 { value, nullable } => Ok(RawLiteral::I8 {
                value: *value,
                nullable: *nullable,
            }),
            RawLiteral::I16 { value, nullable } => Ok(RawLiteral::I16 {
                value: *value,
                nullable: *nullable,
            }),
            RawLiteral::I32 { value, nullable } => Ok(RawLiteral::I32 {
                value: *value,
                nullable: *nullable,
            }),
            RawLiteral::I64 { value, nullable } => Ok(RawLiteral::I64 {
                value: *value,
                nullable: *nullable,
            }),
            RawLiteral::String { value, nullable } => Ok(RawLiteral::String {
                value: value.copy_in(alloc)?,
                nullable: *nullable,
            }),
            RawLiteral::Binary { value, nullable } => Ok(RawLiteral::Binary {
                value: value.copy_in(alloc)?,
                nullable: *nullable,
            }),
            RawLiteral::Timestamp { value, nullable } => Ok(RawLiteral::Timestamp {
                value: *value,
                nullable: *nullable,
            }),
            RawLiteral::Date { value, nullable } => Ok(RawLiteral::Date {
                value: *value,
                nullable: *nullable,
            }),
            RawLiteral::Decimal {
                value,
                precision,
                scale,
                nullable,
            } => Ok(RawLiteral::Decimal {
                value: value.copy_in(alloc)?,
                precision: *precision,
                scale: *scale,
                nullable: *nullable,
            }),
            RawLiteral::Null { type_, nullable } => Ok(RawLiteral::Null {
                type_: type_.copy_in(alloc)?,
                nullable: *nullable,
            }),
        }
    }
}

impl CopyIn for LiteralRow {
    fn copy_in(&self, alloc: Global) -> Result<Self, NoMemory> {
        Ok(LiteralRow {
            fields: self.fields.copy_in(alloc)?,
        })
    }
}
