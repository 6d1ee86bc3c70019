// The type table of a field (Schema.fbs, the union `Type`).
ghost use Rattle.std.specs.Prelude.{◌≡◌, List, [], ◌∷◌, IfOk};
ghost use Rattle.fb_bytes.specs.Layout.{Number, table_laid};
ghost use Rattle.fb_bytes.specs.Object.{laid, IsSound};
ghost use Rattle.arrow_meta.specs.Messages.{type_tag, type_laid, int_laid};

use fb_bytes::{FbField, FbObject};
use std::alloc::Global;
use sub_types::{Kind, NoMemory};

// The tag of the type in the union.
pub(crate) fn type_tag(kind: Kind) -> u8
    ensures { result ≡ type_tag kind }
{
    match kind {
        Kind::I8 | Kind::I16 | Kind::I32 | Kind::I64 => 2,
        Kind::Binary => 4,
        Kind::Text => 5,
        Kind::Bool => 6,
        Kind::Decimal { .. } => 7,
        Kind::Date => 8,
        Kind::Timestamp => 10,
    }
}

pub(crate) fn type_object(alloc: Global, kind: Kind) -> Result<FbObject, NoMemory>
    ensures laid { IfOk result (λ object. laid object ≡ type_laid kind) }
    ensures sound { IfOk result (λ object. IsSound object) }
{
    match kind {
        Kind::Bool | Kind::Text | Kind::Binary => Ok(FbObject::of_fields(Vec::new(alloc))),
        Kind::I8 => int_object(alloc, 8),
        Kind::I16 => int_object(alloc, 16),
        Kind::I32 => int_object(alloc, 32),
        Kind::I64 => int_object(alloc, 64),
        Kind::Date => unit_object(alloc, 0),
        Kind::Timestamp => unit_object(alloc, 2),
        Kind::Decimal { precision, scale } => decimal_object(alloc, precision, scale),
    }
}

// A signed whole number of so many bits.
fn int_object(alloc: Global, bits: u64) -> Result<FbObject, NoMemory>
    ensures laid { IfOk result (λ object. laid object ≡ int_laid bits) }
    ensures sound { IfOk result (λ object. IsSound object) }
{
    let fields = vec![in alloc;
        FbField::Scalar {
            slot: 0,
            width: 4,
            value: bits
        },
        FbField::Scalar {
            slot: 1,
            width: 1,
            value: 1
        },
    ]?;
    Ok(FbObject::of_fields(fields))
}

// A date or a timestamp of this unit.
fn unit_object(alloc: Global, unit: u64) -> Result<FbObject, NoMemory>
    ensures laid { IfOk result (λ object. laid object ≡ table_laid (Number 0 2 unit ∷ [])) }
    ensures sound { IfOk result (λ object. IsSound object) }
{
    let fields = vec![in alloc;
        FbField::Scalar {
            slot: 0,
            width: 2,
            value: unit
        },
    ]?;
    Ok(FbObject::of_fields(fields))
}

fn decimal_object(alloc: Global, precision: u8, scale: u8) -> Result<FbObject, NoMemory>
    ensures laid { IfOk result (λ object. laid object
        ≡ table_laid (Number 0 4 precision ∷ Number 1 4 scale ∷ Number 2 4 128 ∷ [])) }
    ensures sound { IfOk result (λ object. IsSound object) }
{
    let fields = vec![in alloc;
        FbField::Scalar {
            slot: 0,
            width: 4,
            value: u64::from(precision)
        },
        FbField::Scalar {
            slot: 1,
            width: 4,
            value: u64::from(scale)
        },
        FbField::Scalar {
            slot: 2,
            width: 4,
            value: 128
        },
    ]?;
    Ok(FbObject::of_fields(fields))
}
