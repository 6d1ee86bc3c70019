// Whether a value is one of several (Substrait `Expression.SingularOrList`).
ghost use Rattle.std.specs.Prelude.{◌≡◌, ◌∷◌, IfOk, map};
ghost use Rattle.std.specs.Option.{option_map};
ghost use Rattle.plan_verdict.specs.Checking.{in_order};
ghost use Rattle.plan_verdict.specs.Checking.{Comes};
ghost use Rattle.plan_verdict.specs.Exprs as spec;
ghost use Rattle.plan_verdict.specs.Rels.{over};
ghost use Rattle.plan_verdict.specs.Verdict.{checked_expr};

use crate::arms::some_nullable;
use crate::deeper::Deeper;
use crate::each::each_of;
use crate::expr::{of_kind, required_box};
use crate::steps::kind_of;
use crate::terms::Terms;
use plan_leaves::{Boxed, Items};
use plan_raw::RawExpr;
use plan_rules::beside;
use plan_typed::Expr;
use plan_verdict::{CheckError, Progress};
use std::alloc::Global;
use sub_types::{Kind, NoMemory, Ty};

/// A value and options of its kind.
pub(crate) fn singular_or_list<D: Deeper>(
    deeper: &D,
    terms: &Terms<'_>,
    progress: Progress,
    relation: u32,
    columns: &[Ty],
    value: &Option<Boxed<RawExpr>>,
    options: &[RawExpr],
) -> Result<(Expr, Progress), CheckError>
    requires { D.is_ready deeper.now }
    ensures { Comes result (spec.singular_or_list (over relation columns.now) (option_map (checked_expr terms.now) value.now) (map (checked_expr terms.now) options.now) progress) }
{
    let (value, progress) = required_box(deeper, terms, progress, relation, columns, value)?;
    let kind = kind_of(&value);
    let options = options_of_kind(deeper, terms, progress, relation, columns, kind, options);
    let (value, (options, progress)) = beside(value, options)?;
    let (progress, checked) = beside(progress, one_of(terms.alloc(), value, options))?;
    Ok((checked, progress))
}

/// Whether this value is one of these options.
fn one_of(alloc: Global, value: Expr, options: Items<Expr>) -> Result<Expr, NoMemory>
    ensures { IfOk result (λ expr. expr ≡ Expr.OneOf value options (spec.type_with Kind.Bool (spec.some_nullable (value ∷ options)))) }
{
    let nullable = value.ty().nullable || some_nullable(options.as_slice());
    let (options, value) = beside(options, Boxed::new(alloc, value))?;
    Ok(Expr::OneOf {
        value,
        options,
        ty: Ty {
            kind: Kind::Bool,
            nullable,
        },
    })
}

/// Each option, which is of this kind.
fn options_of_kind<D: Deeper>(
    deeper: &D,
    terms: &Terms<'_>,
    progress: Progress,
    relation: u32,
    columns: &[Ty],
    kind: Kind,
    options: &[RawExpr],
) -> Result<(Items<Expr>, Progress), CheckError>
    requires { D.is_ready deeper.now }
    ensures { Comes result (in_order (map (spec.option_of_kind (over relation columns.now) kind) (map (checked_expr terms.now) options.now)) progress) }
{
    each_of(terms.alloc(), progress, options, |progress, option| {
        option_of_kind(deeper, terms, progress, relation, columns, kind, option)
    })
}

fn option_of_kind<D: Deeper>(
    deeper: &D,
    terms: &Terms<'_>,
    progress: Progress,
    relation: u32,
    columns: &[Ty],
    kind: Kind,
    option: &RawExpr,
) -> Result<(Expr, Progress), CheckError>
    requires { D.is_ready deeper.now }
    ensures { Comes result (spec.option_of_kind (over relation columns.now) kind (checked_expr terms.now option.now) progress) }
{
    let checked = deeper.expression(terms, progress, relation, columns, option)?;
    of_kind(relation, kind, checked)
}
