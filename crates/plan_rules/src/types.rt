// The types that a plan writes (Substrait `Type`).
ghost use Rattle.std.specs.Prelude.{◌≡◌, IfSome};
ghost use Rattle.sub_types.specs.Kind.{IsKind};
ghost use Rattle.plan_verdict.specs.Checking.{Agrees};
ghost use Rattle.plan_verdict.specs.Types as spec;

use plan_leaves::RawType;
use plan_verdict::{CheckError, Rule};
use sub_types::{Kind, Ty};

/// The type, if it is one of the ten kinds.
pub fn type_of(raw: &RawType) -> Option<Ty>
    ensures ty { result ≡ spec.type_of raw.now }
    ensures kind { IfSome result (λ ty. IsKind ty.kind) }
{
    match raw {
        RawType::Bool { nullability } => Some(type_as(Kind::Bool, *nullability)),
        RawType::I8 { nullability } => Some(type_as(Kind::I8, *nullability)),
        RawType::I16 { nullability } => Some(type_as(Kind::I16, *nullability)),
        RawType::I32 { nullability } => Some(type_as(Kind::I32, *nullability)),
        RawType::I64 { nullability } => Some(type_as(Kind::I64, *nullability)),
        RawType::String { nullability } => Some(type_as(Kind::Text, *nullability)),
        RawType::Binary { nullability } => Some(type_as(Kind::Binary, *nullability)),
        RawType::Timestamp { nullability } => Some(type_as(Kind::Timestamp, *nullability)),
        RawType::Date { nullability } => Some(type_as(Kind::Date, *nullability)),
        RawType::Decimal {
            scale,
            precision,
            nullability,
        } => match decimal_of(*precision, *scale) {
            None => None,
            Some(kind) => Some(type_as(kind, *nullability)),
        },
        RawType::Missing | RawType::Unknown { .. } | RawType::Struct { .. } => None,
    }
}

fn type_as(kind: Kind, nullability: u32) -> Ty
    ensures { result ≡ spec.type_as kind nullability }
{
    Ty {
        kind,
        nullable: nullability != 2,
    }
}

pub(crate) fn decimal_of(precision: i32, scale: i32) -> Option<Kind>
    ensures kind { result ≡ spec.decimal_of precision scale }
    ensures valid { IfSome result IsKind }
{
    if precision < 1 || precision > 38 || scale < 0 || scale > precision {
        return None;
    }
    Some(Kind::Decimal {
        precision: precision as u8,
        scale: scale as u8,
    })
}

/// The type, or the refusal of one that isn't supported; it stands in the relation with this number.
pub fn type_in(relation: u32, raw: &RawType) -> Result<Ty, CheckError>
    ensures { Agrees result relation (spec.type_in raw.now) }
{
    match type_of(raw) {
        Some(ty) => Ok(ty),
        None => Err(CheckError::Refused {
            relation,
            rule: Rule::UnsupportedType,
        }),
    }
}
