// Casts (Substrait `Expression.Cast`).
ghost use Rattle.std.specs.Option.{option_map};
ghost use Rattle.plan_verdict.specs.Checking.{Comes};
ghost use Rattle.plan_verdict.specs.Exprs as spec;
ghost use Rattle.plan_verdict.specs.Rels.{over};
ghost use Rattle.plan_verdict.specs.Verdict.{checked_expr};

use crate::deeper::Deeper;
use crate::expr::required_box;
use crate::steps::{kind_of, refuse};
use crate::terms::Terms;
use plan_leaves::{Boxed, RawType};
use plan_raw::RawExpr;
use plan_rules::{beside, can_cast, must, type_in};
use plan_typed::Expr;
use plan_verdict::{CheckError, Progress, Rule};
use sub_types::Ty;

/// A cast. Failure behavior 1 gives null, 0 and 2 a fault.
pub(crate) fn cast<D: Deeper>(
    deeper: &D,
    terms: &Terms<'_>,
    progress: Progress,
    relation: u32,
    columns: &[Ty],
    type_: &Option<RawType>,
    input: &Option<Boxed<RawExpr>>,
    failure: u32,
) -> Result<(Expr, Progress), CheckError>
    requires { D.is_ready deeper.now }
    ensures { Comes result (spec.cast (over relation columns.now) type_.now (option_map (checked_expr terms.now) input.now) failure progress) }
{
    let Some(raw) = type_ else {
        return refuse(relation, Rule::MissingField);
    };
    let checked = required_box(deeper, terms, progress, relation, columns, input)?;
    let (checked, ty) = beside(checked, type_in(relation, raw))?;
    let can_be = can_cast(kind_of(&checked.0), ty.kind);
    let checked = must(relation, can_be, Rule::BadArguments, checked)?;
    let (expr, progress) = must(relation, failure <= 2, Rule::UnsupportedForm, checked)?;
    let null_on_fail = failure == 1;
    let nullable = expr.ty().nullable || null_on_fail;
    let (progress, input) = beside(progress, Boxed::new(terms.alloc(), expr))?;
    let cast = Expr::Cast {
        input,
        null_on_fail,
        ty: Ty {
            kind: ty.kind,
            nullable,
        },
    };
    Ok((cast, progress))
}
