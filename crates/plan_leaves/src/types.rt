// Types as they are written (Substrait `Type`).
ghost use Rattle.std.specs.Prelude.{◌≡◌, IfOk};

use crate::{CopyIn, Items};
use std::alloc::Global;
use sub_types::NoMemory;

/// A `Type`. Nullability 2 is required, every other number is nullable.
#[derive(Drop)]
pub enum RawType {
    Missing,
    Unknown {
        number: u32,
    },
    Bool {
        nullability: u32,
    },
    I8 {
        nullability: u32,
    },
    I16 {
        nullability: u32,
    },
    I32 {
        nullability: u32,
    },
    I64 {
        nullability: u32,
    },
    String {
        nullability: u32,
    },
    Binary {
        nullability: u32,
    },
    /// Microseconds since 1970-01-01, without a zone.
    Timestamp {
        nullability: u32,
    },
    /// Days since 1970-01-01.
    Date {
        nullability: u32,
    },
    Decimal {
        scale: i32,
        precision: i32,
        nullability: u32,
    },
    Struct {
        types: Items<RawType>,
    },
}

/// A `Type.Struct` where it stands by itself, as in a base schema.
#[derive(Drop)]
pub struct StructType {
    pub types: Items<RawType>,
}

impl CopyIn for RawType {
    fn copy_in(&self, alloc: Global) -> Result<Self, NoMemory> {
        copy_type(alloc, self)
    }
}

fn copy_type(alloc: Global, ty: &RawType) -> Result<RawType, NoMemory>
    ensures { IfOk result (λ copy. copy ≡ ty.now) }
{
    match ty {
        RawType::Missing => Ok(RawType::Missing),
        RawType::Unknown { number } => Ok(RawType::Unknown { number: *number }),
        RawType::Bool { nullability } => Ok(RawType::Bool {
            nullability: *nullability,
        }),
        RawType::I8 { nullability } => Ok(RawType::I8 {
            nullability: *nullability,
        }),
        RawType::I16 { nullability } => Ok(RawType::I16 {
            nullability: *nullability,
        }),
        RawType::I32 { nullability } => Ok(RawType::I32 {
            nullability: *nullability,
        }),
        RawType::I64 { nullability } => Ok(RawType::I64 {
            nullability: *nullability,
        }),
        RawType::String { nullability } => Ok(RawType::String {
            nullability: *nullability,
        }),
        RawType::Binary { nullability } => Ok(RawType::Binary {
            nullability: *nullability,
        }),
        RawType::Timestamp { nullability } => Ok(RawType::Timestamp {
            nullability: *nullability,
        }),
        RawType::Date { nullability } => Ok(RawType::Date {
            nullability: *nullability,
        }),
        RawType::Decimal {
            scale,
            precision,
            nullability,
        } => Ok(RawType::Decimal {
            scale: *scale,
            precision: *precision,
            nullability: *nullability,
        }),
        RawType::Struct { types } => {
            let mut copies = Vec::with_capacity(alloc, types.len())?;
            for ty in types.as_slice() {
                copies.push(copy_type(alloc, ty)?)?;
            }
            Ok(RawType::Struct {
                types: Items::from_vec(copies),
            })
        }
    }
}

impl CopyIn for StructType {
    fn copy_in(&self, alloc: Global) -> Result<Self, NoMemory> {
        Ok(StructType {
            types: self.types.copy_in(alloc)?,
        })
    }
}
