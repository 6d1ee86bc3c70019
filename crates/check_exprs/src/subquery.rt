// Subqueries (Substrait `Expression.Subquery`).
ghost use Rattle.std.specs.Prelude.{◌≡◌, ◌∷◌, ◌||◌, [], true, false, IfErr, IfOk, map};
ghost use Rattle.func_table.specs.Kinds.{is_equal};
ghost use Rattle.plan_typed.specs.Types.{ty_of};
ghost use Rattle.check_exprs.specs.Column.{in_column as in_column_as, in_only_column as in_only_column_as};
ghost use Rattle.std.specs.Option.{option_map};
ghost use Rattle.plan_verdict.specs.Checking.{Comes};
ghost use Rattle.plan_verdict.specs.Exprs as spec;
ghost use Rattle.plan_verdict.specs.Rels.{over};
ghost use Rattle.plan_verdict.specs.Verdict.{checked_expr, checked_rel};
ghost use Rattle.plan_verdict.specs.declared.rule.CheckError.TheVariants.{Refused};
ghost use Rattle.plan_verdict.specs.declared.rule.Rule.TheVariants.{TypeMismatch};

use crate::arms::{single, single_of};
use crate::deeper::Deeper;
use crate::inputs::input;
use crate::progress::done;
use crate::steps::{kind_of, null_of, refuse};
use crate::terms::Terms;
use plan_leaves::{Boxed, Items};
use plan_raw::{RawExpr, RawRel};
use plan_rules::beside;
use plan_typed::{Expr, Hole, Rel, Sub, SubKind};
use plan_verdict::{CheckError, Progress, Rule};
use std::alloc::Global;
use sub_types::{Kind, NoMemory, Ty, Value};

/// The one value of a relation of one column. Null of its kind stands in the place.
pub(crate) fn scalar<D: Deeper>(
    deeper: &D,
    terms: &Terms<'_>,
    progress: Progress,
    relation: u32,
    columns: &[Ty],
    node: u32,
    written: &Option<Boxed<RawRel>>,
) -> Result<(Expr, Progress), CheckError>
    requires { D.is_ready deeper.now }
    ensures { Comes result (spec.where_taken terms.now (over relation columns.now) (spec.scalar (over relation columns.now) node (option_map (checked_rel terms.now) written.now)) progress) }
{
    if !terms.takes_subqueries() {
        return refuse(relation, Rule::UnsupportedForm);
    }
    let (rel, progress) = input(deeper, terms, progress, relation, written)?;
    let column = only_column(relation, rel.columns.as_slice());
    let ((rel, progress), column) = beside((rel, progress), column)?;
    let hole = Hole { relation, node };
    let progress = done(
        progress,
        Sub {
            rel,
            kind: SubKind::Scalar,
            hole,
        },
    )?;
    Ok((null_of(column.kind), progress))
}

/// The one column.
fn only_column(relation: u32, columns: &[Ty]) -> Result<Ty, CheckError>
    ensures column { IfOk result (λ column. columns.now ≡ column ∷ []) }
    ensures refused { IfErr result (λ error. (spec.is_single columns.now ≡ false) × (error ≡ Refused relation TypeMismatch)) }
{
    match single(columns) {
        Some(column) => Ok(column),
        None => refuse(relation, Rule::TypeMismatch),
    }
}

/// Whether a value is one of a relation of one column. A list without options stands in the place.
pub(crate) fn in_predicate<D: Deeper>(
    deeper: &D,
    terms: &Terms<'_>,
    progress: Progress,
    relation: u32,
    columns: &[Ty],
    node: u32,
    needles: &[RawExpr],
    haystack: &Option<Boxed<RawRel>>,
) -> Result<(Expr, Progress), CheckError>
    requires { D.is_ready deeper.now }
    ensures { Comes result (spec.where_taken terms.now (over relation columns.now) (spec.in_predicate (over relation columns.now) node (map (checked_expr terms.now) needles.now) (option_map (checked_rel terms.now) haystack.now)) progress) }
{
    if !terms.takes_subqueries() {
        return refuse(relation, Rule::UnsupportedForm);
    }
    match needles {
        [needle] => {
            in_relation(
                deeper, terms, progress, relation, columns, node, needle, haystack,
            )
        }
        _ => refuse(relation, Rule::UnsupportedForm),
    }
}

/// The same of the one value that is looked for.
fn in_relation<D: Deeper>(
    deeper: &D,
    terms: &Terms<'_>,
    progress: Progress,
    relation: u32,
    columns: &[Ty],
    node: u32,
    needle: &RawExpr,
    haystack: &Option<Boxed<RawRel>>,
) -> Result<(Expr, Progress), CheckError>
    requires { D.is_ready deeper.now }
    ensures { Comes result (spec.in_predicate (over relation columns.now) node (checked_expr terms.now needle.now ∷ []) (option_map (checked_rel terms.now) haystack.now) progress) }
{
    let (value, progress) = deeper.expression(terms, progress, relation, columns, needle)?;
    let rel = input(deeper, terms, progress, relation, haystack);
    let (value, (rel, progress)) = beside(value, rel)?;
    in_column(terms.alloc(), progress, relation, node, value, rel)
}

/// Whether this value is one of the only column of this relation.
fn in_column(
    alloc: Global,
    progress: Progress,
    relation: u32,
    node: u32,
    value: Expr,
    rel: Rel,
) -> Result<(Expr, Progress), CheckError>
    ensures { Comes result (in_column_as relation node value rel progress) }
{
    let column = column_of_kind(relation, rel.columns.as_slice(), kind_of(&value));
    let ((value, rel, progress), column) = beside((value, rel, progress), column)?;
    in_only_column(alloc, progress, relation, node, value, rel, column)
}

/// Whether this value is one of this only column of this relation.
fn in_only_column(
    alloc: Global,
    progress: Progress,
    relation: u32,
    node: u32,
    value: Expr,
    rel: Rel,
    column: Ty,
) -> Result<(Expr, Progress), CheckError>
    ensures { Comes result (in_only_column_as relation node value rel column progress) }
{
    let ty = truth_of(&value, column);
    let hole = Hole { relation, node };
    let sub = Sub {
        rel,
        kind: SubKind::In,
        hole,
    };
    let (value, progress) = beside(value, done(progress, sub))?;
    let (progress, checked) = beside(progress, one_of_none(alloc, value, ty))?;
    Ok((checked, progress))
}

/// The one column, which is of the kind.
fn column_of_kind(relation: u32, columns: &[Ty], kind: Kind) -> Result<Ty, CheckError>
    ensures column { IfOk result (λ column. (columns.now ≡ column ∷ []) × (is_equal column.kind kind ≡ true)) }
    ensures refused { IfErr result (λ error. (spec.is_single_of kind columns.now ≡ false) × (error ≡ Refused relation TypeMismatch)) }
{
    match single_of(columns, kind) {
        Some(column) => Ok(column),
        None => refuse(relation, Rule::TypeMismatch),
    }
}

/// The type of what says whether a value is one of a column's.
fn truth_of(value: &Expr, column: Ty) -> Ty
    ensures { result ≡ spec.type_with Kind.Bool ((ty_of value.now).nullable || column.nullable) }
{
    Ty {
        kind: Kind::Bool,
        nullable: value.ty().nullable || column.nullable,
    }
}

/// Whether a value is one of a list without options.
fn one_of_none(alloc: Global, value: Expr, ty: Ty) -> Result<Expr, NoMemory>
    ensures { IfOk result (λ expr. expr ≡ Expr.OneOf value [] ty) }
{
    Ok(Expr::OneOf {
        value: Boxed::new(alloc, value)?,
        options: Items::new(alloc),
        ty,
    })
}

/// Whether a relation has a row, which is predicate 1. False stands in the place.
pub(crate) fn set_predicate<D: Deeper>(
    deeper: &D,
    terms: &Terms<'_>,
    progress: Progress,
    relation: u32,
    columns: &[Ty],
    node: u32,
    predicate: u32,
    tuples: &Option<Boxed<RawRel>>,
) -> Result<(Expr, Progress), CheckError>
    requires { D.is_ready deeper.now }
    ensures { Comes result (spec.where_taken terms.now (over relation columns.now) (spec.set_predicate (over relation columns.now) node predicate (option_map (checked_rel terms.now) tuples.now)) progress) }
{
    if !terms.takes_subqueries() || predicate != 1 {
        return refuse(relation, Rule::UnsupportedForm);
    }
    let (rel, progress) = input(deeper, terms, progress, relation, tuples)?;
    let hole = Hole { relation, node };
    let progress = done(
        progress,
        Sub {
            rel,
            kind: SubKind::Exists,
            hole,
        },
    )?;
    let checked = Expr::Const {
        value: Value::Bool(false),
        ty: Ty {
            kind: Kind::Bool,
            nullable: false,
        },
    };
    Ok((checked, progress))
}
