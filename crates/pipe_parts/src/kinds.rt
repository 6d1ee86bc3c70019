// Types that may stand in a plan.
ghost use Rattle.std.specs.Prelude.{◌≡◌, ◌↔◌, All, IfOk, IsTrue, map};
ghost use Rattle.sub_types.specs.Kind.{IsKind};
ghost use Rattle.batch.specs.Column.{column_type};

use batch::Column;
use std::alloc::Global;
use sub_types::{Kind, NoMemory, Ty};

/// Whether types may stand in a plan: decimals have 1 to 38 digits, of which at most all stand behind the point.
pub fn are_kinds(types: &[Ty]) -> bool
    ensures { IsTrue result ↔ All (λ ty. IsKind ty.kind) types.now }
{
    for ty in types {
        if !is_kind(ty.kind) {
            return false;
        }
    }
    true
}

fn is_kind(kind: Kind) -> bool
    ensures { IsTrue result ↔ IsKind kind }
{
    match kind {
        Kind::Decimal { precision, scale } => {
            1 <= precision && precision <= 38 && scale <= precision
        }
        _ => true,
    }
}

/// The types of columns.
pub(crate) fn types_in(alloc: Global, columns: &[Column]) -> Result<Vec<Ty>, NoMemory>
    ensures { IfOk result (λ types. types.items ≡ map column_type columns.now) }
{
    let mut types = Vec::with_capacity(alloc, columns.len())?;
    for column in columns {
        types.push(column.ty)?;
    }
    Ok(types)
}
