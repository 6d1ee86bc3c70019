// References to columns and literals as expressions (Substrait `Expression.FieldReference` and `Expression.Literal`).
ghost use Rattle.std.specs.Prelude.{◌≡◌};
ghost use Rattle.plan_verdict.specs.Checking.{Agrees};
ghost use Rattle.plan_verdict.specs.Literals as literals;
ghost use Rattle.plan_verdict.specs.References as spec;

use crate::steps::refuse;
use plan_leaves::{RawLiteral, ReferenceSegment};
use plan_rules::literal_in;
use plan_typed::Expr;
use plan_verdict::{CheckError, Rule};
use std::alloc::Global;
use sub_types::Ty;

/// A reference to one of these columns.
pub(crate) fn selection(
    relation: u32,
    columns: &[Ty],
    direct: &Option<ReferenceSegment>,
    other: bool,
) -> Result<Expr, CheckError>
    ensures { Agrees result relation (spec.selection_in columns.now direct.now other) }
{
    let Some(field) = direct_field(direct, other) else {
        return refuse(relation, Rule::UnsupportedForm);
    };
    let Some(column) = column_of(columns, field) else {
        return refuse(relation, Rule::BadReference);
    };
    Ok(column)
}

fn direct_field(direct: &Option<ReferenceSegment>, other: bool) -> Option<i32>
    ensures { result ≡ spec.direct_field direct.now other }
{
    if other {
        return None;
    }
    let field = (*direct)?.struct_field?;
    if field.child {
        return None;
    }
    Some(field.field)
}

fn column_of(columns: &[Ty], field: i32) -> Option<Expr>
    ensures { result ≡ spec.column_of columns.now field }
{
    if field < 0 {
        return None;
    }
    let place = field as u32;
    let ty = *columns.get(place as usize)?;
    Some(Expr::Column { index: place, ty })
}

/// A literal as an expression.
pub fn constant(alloc: Global, relation: u32, raw: &RawLiteral) -> Result<Expr, CheckError>
    ensures { Agrees result relation (literals.constant_in raw.now) }
{
    let (value, ty) = literal_in(alloc, relation, raw)?;
    Ok(Expr::Const { value, ty })
}
