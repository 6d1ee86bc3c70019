// Switches (Substrait `Expression.SwitchExpression`).
ghost use Rattle.std.specs.Prelude.{◌≡◌, ◌++◌, ◌∷◌, ◌&&◌, [], IfOk, is_some, map, not};
ghost use Rattle.std.specs.List.{zip as zip_as};
ghost use Rattle.plan_verdict.specs.Lists.{is_empty};
ghost use Rattle.check_exprs.specs.Arms as arms;
ghost use Rattle.std.specs.Option.{option_map};
ghost use Rattle.plan_verdict.specs.Checking.{Agrees, Comes, in_order};
ghost use Rattle.plan_verdict.specs.Literals as literals;
ghost use Rattle.plan_verdict.specs.Literals.{values_of_kind};
ghost use Rattle.plan_verdict.specs.Exprs as spec;
ghost use Rattle.plan_verdict.specs.Rels.{over};
ghost use Rattle.plan_verdict.specs.Verdict.{checked_arm, checked_expr};

use crate::arms::{are_alike, first_kind, type_among, zipped};
use crate::conditional::otherwise;
use crate::deeper::Deeper;
use crate::each::each_of;
use crate::expr::{required, required_box};
use crate::steps::{kind_of, part, refuse};
use crate::terms::Terms;
use plan_leaves::{Boxed, Items, RawLiteral, zip};
use plan_raw::{IfValue, RawExpr};
use plan_rules::{beside, is_equal_kind, literal_in, must};
use plan_typed::Expr;
use plan_verdict::{CheckError, Progress, Rule};
use std::alloc::Global;
use sub_types::{Kind, NoMemory, Ty, Value};

/// The subject, then each literal, then each value, then the else, and then the kinds of the values.
pub(crate) fn switch<D: Deeper>(
    deeper: &D,
    terms: &Terms<'_>,
    progress: Progress,
    relation: u32,
    columns: &[Ty],
    ifs: &[IfValue],
    else_: &Option<Boxed<RawExpr>>,
    match_: &Option<Boxed<RawExpr>>,
) -> Result<(Expr, Progress), CheckError>
    requires { D.is_ready deeper.now }
    ensures { Comes result (spec.switch (over relation columns.now) (map (checked_arm terms.now) ifs.now) (option_map (checked_expr terms.now) else_.now) (option_map (checked_expr terms.now) match_.now) progress) }
{
    if !has_parts(match_, ifs) {
        return refuse(relation, Rule::MissingField);
    }
    let (subject, progress) = required_box(deeper, terms, progress, relation, columns, match_)?;
    let kind = kind_of(&subject);
    let found = switch_arms(deeper, terms, progress, relation, columns, kind, ifs, else_);
    let (subject, ((literals, values, other), progress)) = beside(subject, found)?;
    part(
        switch_of(terms.alloc(), relation, subject, literals, values, other),
        progress,
    )
}

/// The literals, which are of the subject's kind, the values and the else.
fn switch_arms<D: Deeper>(
    deeper: &D,
    terms: &Terms<'_>,
    progress: Progress,
    relation: u32,
    columns: &[Ty],
    kind: Kind,
    ifs: &[IfValue],
    else_: &Option<Boxed<RawExpr>>,
) -> Result<((Items<Value>, Items<Expr>, Expr), Progress), CheckError>
    requires { D.is_ready deeper.now }
    ensures { Comes result (arms.switch_arms (over relation columns.now) kind (map (checked_arm terms.now) ifs.now) (option_map (checked_expr terms.now) else_.now) progress) }
{
    let literals = literals(terms, relation, kind, ifs)?;
    let (values, progress) = values(deeper, terms, progress, relation, columns, ifs)?;
    let kind = values_kind(&values);
    let (other, progress) = otherwise(deeper, terms, progress, relation, columns, kind, else_)?;
    Ok(((literals, values, other), progress))
}

/// The kind of the first value.
fn values_kind(values: &Items<Expr>) -> Kind
    ensures { result ≡ spec.first_kind values.now }
{
    first_kind(values.as_slice())
}

/// A switch of this subject, these literals with their values, and this else; the values are of one kind.
fn switch_of(
    alloc: Global,
    relation: u32,
    subject: Expr,
    literals: Items<Value>,
    values: Items<Expr>,
    other: Expr,
) -> Result<Expr, CheckError>
    ensures { Agrees result relation (arms.switch_of subject literals values other) }
{
    let alike = are_alike(values.as_slice(), &other);
    let (subject, other) = must(relation, alike, Rule::TypeMismatch, (subject, other))?;
    Ok(switch_among(alloc, subject, literals, values, other)?)
}

/// A switch of a subject, literals with their values, and an else; the values are of one kind.
fn switch_among(
    alloc: Global,
    subject: Expr,
    literals: Items<Value>,
    values: Items<Expr>,
    other: Expr,
) -> Result<Expr, NoMemory>
    ensures { IfOk result (λ expr. expr ≡ Expr.Switch subject (zip_as literals values) other (spec.type_among (values ++ other ∷ []))) }
{
    let ty = type_among(values.as_slice(), &other);
    let arms = zipped(alloc, literals, values);
    let boxes = zip(Boxed::new(alloc, subject), Boxed::new(alloc, other));
    let (arms, (subject, other)) = zip(arms, boxes)?;
    Ok(Expr::Switch {
        subject,
        arms,
        other,
        ty,
    })
}

/// There is a subject, and an arm.
fn has_parts(match_: &Option<Boxed<RawExpr>>, ifs: &[IfValue]) -> bool
    ensures { result ≡ (is_some match_.now && not (is_empty ifs.now)) }
{
    match_.is_some() && !ifs.is_empty()
}

/// Each arm's value.
fn values<D: Deeper>(
    deeper: &D,
    terms: &Terms<'_>,
    progress: Progress,
    relation: u32,
    columns: &[Ty],
    ifs: &[IfValue],
) -> Result<(Items<Expr>, Progress), CheckError>
    requires { D.is_ready deeper.now }
    ensures { Comes result (in_order (map (λ arm. spec.required (over relation columns.now) arm.value) (map (checked_arm terms.now) ifs.now)) progress) }
{
    each_of(terms.alloc(), progress, ifs, |progress, one| {
        required(deeper, terms, progress, relation, columns, &one.then)
    })
}

/// The value of each arm's literal, which is of this kind.
fn literals(
    terms: &Terms<'_>,
    relation: u32,
    kind: Kind,
    ifs: &[IfValue],
) -> Result<Items<Value>, CheckError>
    ensures { Agrees result relation (values_of_kind kind (map (λ arm. arm.literal) (map (checked_arm terms.now) ifs.now))) }
{
    let mut values = Items::new(terms.alloc());
    for one in ifs {
        values.push(value_of_kind(terms.alloc(), relation, kind, &one.if_)?)?;
    }
    Ok(values)
}

fn value_of_kind(
    alloc: Global,
    relation: u32,
    kind: Kind,
    written: &Option<RawLiteral>,
) -> Result<Value, CheckError>
    ensures { Agrees result relation (literals.value_of_kind kind written.now) }
{
    let Some(raw) = written else {
        return refuse(relation, Rule::MissingField);
    };
    let (value, ty) = literal_in(alloc, relation, raw)?;
    if !is_equal_kind(ty.kind, kind) {
        return refuse(relation, Rule::TypeMismatch);
    }
    Ok(value)
}
