// If-thens (Substrait `Expression.IfThen`), and the else of these and of switches.
ghost use Rattle.std.specs.Prelude.{◌≡◌, ◌++◌, ◌∷◌, [], IfOk, map};
ghost use Rattle.check_exprs.specs.Arms as arms_spec;
ghost use Rattle.std.specs.Option.{option_map};
ghost use Rattle.plan_verdict.specs.Checking.{in_order};
ghost use Rattle.plan_verdict.specs.Checking.{Agrees, Comes};
ghost use Rattle.plan_verdict.specs.Exprs as spec;
ghost use Rattle.plan_verdict.specs.Rels.{over};
ghost use Rattle.plan_verdict.specs.Verdict.{checked_clause, checked_expr};

use crate::arms::{arms_alike, arms_kind, arms_type};
use crate::deeper::Deeper;
use crate::each::each_of;
use crate::expr::{condition, required};
use crate::progress::next_node;
use crate::steps::{null_of, part, refuse};
use crate::terms::Terms;
use plan_leaves::{Boxed, Items};
use plan_raw::{IfClause, RawExpr};
use plan_rules::{beside, must};
use plan_typed::Expr;
use plan_verdict::{CheckError, Progress, Rule};
use std::alloc::Global;
use sub_types::{Kind, NoMemory, Ty};

/// The clauses, then the else, and then the kinds of the values.
pub(crate) fn if_then<D: Deeper>(
    deeper: &D,
    terms: &Terms<'_>,
    progress: Progress,
    relation: u32,
    columns: &[Ty],
    ifs: &[IfClause],
    else_: &Option<Boxed<RawExpr>>,
) -> Result<(Expr, Progress), CheckError>
    requires { D.is_ready deeper.now }
    ensures { Comes result (spec.if_then (over relation columns.now) (map (checked_clause terms.now) ifs.now) (option_map (checked_expr terms.now) else_.now) progress) }
{
    if ifs.is_empty() {
        return refuse(relation, Rule::MissingField);
    }
    let (arms, progress) = clauses(deeper, terms, progress, relation, columns, ifs)?;
    let kind = values_kind(&arms);
    let (other, progress) = otherwise(deeper, terms, progress, relation, columns, kind, else_)?;
    part(if_of(terms.alloc(), relation, arms, other), progress)
}

/// The kind of the first arm's value.
fn values_kind(arms: &Items<(Expr, Expr)>) -> Kind
    ensures { result ≡ spec.first_kind (arms_spec.values_of arms.now) }
{
    arms_kind(arms.as_slice())
}

/// An if-then of these arms and else, whose values are of one kind.
fn if_of(
    alloc: Global,
    relation: u32,
    arms: Items<(Expr, Expr)>,
    other: Expr,
) -> Result<Expr, CheckError>
    ensures { Agrees result relation (arms_spec.if_of arms other) }
{
    let alike = arms_alike(arms.as_slice(), &other);
    let (arms, other) = must(relation, alike, Rule::TypeMismatch, (arms, other))?;
    Ok(if_among(alloc, arms, other)?)
}

/// An if-then of arms and an else whose values are of one kind.
fn if_among(alloc: Global, arms: Items<(Expr, Expr)>, other: Expr) -> Result<Expr, NoMemory>
    ensures { IfOk result (λ expr. expr ≡ Expr.If arms other (spec.type_among (arms_spec.values_of arms ++ other ∷ []))) }
{
    let ty = arms_type(arms.as_slice(), &other);
    let (arms, other) = beside(arms, Boxed::new(alloc, other))?;
    Ok(Expr::If { arms, other, ty })
}

/// Each clause: a condition and a value.
fn clauses<D: Deeper>(
    deeper: &D,
    terms: &Terms<'_>,
    progress: Progress,
    relation: u32,
    columns: &[Ty],
    ifs: &[IfClause],
) -> Result<(Items<(Expr, Expr)>, Progress), CheckError>
    requires { D.is_ready deeper.now }
    ensures { Comes result (in_order (map (λ clause. clause (over relation columns.now)) (map (checked_clause terms.now) ifs.now)) progress) }
{
    each_of(terms.alloc(), progress, ifs, |progress, one| {
        clause(deeper, terms, progress, relation, columns, one)
    })
}

fn clause<D: Deeper>(
    deeper: &D,
    terms: &Terms<'_>,
    progress: Progress,
    relation: u32,
    columns: &[Ty],
    clause: &IfClause,
) -> Result<((Expr, Expr), Progress), CheckError>
    requires { D.is_ready deeper.now }
    ensures { Comes result (checked_clause terms.now clause.now (over relation columns.now) progress) }
{
    clause_of(
        deeper,
        terms,
        progress,
        relation,
        columns,
        &clause.if_,
        &clause.then,
    )
}

/// A clause of a condition and a value.
fn clause_of<D: Deeper>(
    deeper: &D,
    terms: &Terms<'_>,
    progress: Progress,
    relation: u32,
    columns: &[Ty],
    test: &Option<RawExpr>,
    value: &Option<RawExpr>,
) -> Result<((Expr, Expr), Progress), CheckError>
    requires { D.is_ready deeper.now }
    ensures { Comes result (spec.if_clause (option_map (checked_expr terms.now) test.now) (option_map (checked_expr terms.now) value.now) (over relation columns.now) progress) }
{
    let (test, progress) = condition(deeper, terms, progress, relation, columns, test)?;
    let value = required(deeper, terms, progress, relation, columns, value);
    let (test, (value, progress)) = beside(test, value)?;
    Ok(((test, value), progress))
}

/// The else: null of the kind where it is absent.
pub(crate) fn otherwise<D: Deeper>(
    deeper: &D,
    terms: &Terms<'_>,
    progress: Progress,
    relation: u32,
    columns: &[Ty],
    kind: Kind,
    else_: &Option<Boxed<RawExpr>>,
) -> Result<(Expr, Progress), CheckError>
    requires { D.is_ready deeper.now }
    ensures { Comes result (spec.otherwise (over relation columns.now) kind (option_map (checked_expr terms.now) else_.now) progress) }
{
    match else_ {
        Some(expr) => deeper.expression(terms, progress, relation, columns, expr.get()),
        None => {
            let (_, progress) = next_node(progress)?;
            Ok((null_of(kind), progress))
        }
    }
}
