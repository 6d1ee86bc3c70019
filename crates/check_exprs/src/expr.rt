// Expressions (Substrait `Expression`).
ghost use Rattle.std.specs.Prelude.{List, map};
ghost use Rattle.sub_types.specs.declared.kind.Ty.{Ty as Column};
ghost use Rattle.check_exprs.specs.Parts as parts;
ghost use Rattle.std.specs.Option.{option_map};
ghost use Rattle.plan_verdict.specs.Checking as checking;
ghost use Rattle.plan_verdict.specs.Checking.{Comes};
ghost use Rattle.plan_verdict.specs.Exprs as spec;
ghost use Rattle.plan_verdict.specs.Rels as rels;
ghost use Rattle.plan_verdict.specs.Rels.{over};
ghost use Rattle.plan_verdict.specs.Verdict.{checked_expr};
ghost use Rattle.plan_verdict.specs.declared.rule.Rule.TheVariants.{MissingField};

use crate::cast::cast;
use crate::column::{constant, selection};
use crate::conditional::if_then;
use crate::deeper::Deeper;
use crate::each::each_of;
use crate::function::scalar_function;
use crate::list::singular_or_list;
use crate::progress::next_node;
use crate::steps::{kind_of, part, refuse};
use crate::subquery::{in_predicate, scalar, set_predicate};
use crate::switch::switch;
use crate::terms::Terms;
use plan_leaves::{Boxed, Items};
use plan_raw::RawExpr;
use plan_rules::{is_equal_kind, must};
use plan_typed::Expr;
use plan_verdict::{CheckError, Progress, Rule};
use sub_types::{Kind, Ty};

/// An expression in the relation with this number, over these columns.
pub fn expression_by<D: Deeper>(
    deeper: &D,
    terms: &Terms<'_>,
    progress: Progress,
    relation: u32,
    columns: &[Ty],
    expr: &RawExpr,
) -> Result<(Expr, Progress), CheckError>
    requires { D.is_ready deeper.now }
    ensures { Comes result ((checked_expr terms.now expr.now).check (over relation columns.now) progress) }
{
    let (node, progress) = next_node(progress)?;
    match expr {
        RawExpr::Missing => refuse(relation, Rule::MissingField),
        RawExpr::Unknown { .. } | RawExpr::SubqueryUnknown { .. } | RawExpr::SetComparison => {
            refuse(relation, Rule::UnsupportedForm)
        }
        RawExpr::Literal(raw) => part(constant(terms.alloc(), relation, raw), progress),
        RawExpr::Selection {
            direct_reference,
            other,
            ..
        } => part(
            selection(relation, columns, direct_reference, *other),
            progress,
        ),
        RawExpr::ScalarFunction {
            function_reference,
            output_type,
            arguments,
            options,
        } => scalar_function(
            deeper,
            terms,
            progress,
            relation,
            columns,
            *function_reference,
            output_type,
            arguments.as_slice(),
            options.as_slice(),
        ),
        RawExpr::IfThen { ifs, else_ } => {
            if_then(
                deeper,
                terms,
                progress,
                relation,
                columns,
                ifs.as_slice(),
                else_,
            )
        }
        RawExpr::SwitchExpression { ifs, else_, match_ } => {
            switch(
                deeper,
                terms,
                progress,
                relation,
                columns,
                ifs.as_slice(),
                else_,
                match_,
            )
        }
        RawExpr::SingularOrList { value, options } => {
            singular_or_list(
                deeper,
                terms,
                progress,
                relation,
                columns,
                value,
                options.as_slice(),
            )
        }
        RawExpr::Cast {
            type_,
            input,
            failure_behavior,
        } => cast(
            deeper,
            terms,
            progress,
            relation,
            columns,
            type_,
            input,
            *failure_behavior,
        ),
        RawExpr::SubqueryMissing => without_member(terms, progress, relation),
        RawExpr::Scalar { input } => scalar(
            deeper, terms, progress, relation, columns, node, input,
        ),
        RawExpr::InPredicate { needles, haystack } => in_predicate(
            deeper,
            terms,
            progress,
            relation,
            columns,
            node,
            needles.as_slice(),
            haystack,
        ),
        RawExpr::SetPredicate {
            predicate_op,
            tuples,
        } => set_predicate(
            deeper,
            terms,
            progress,
            relation,
            columns,
            node,
            *predicate_op,
            tuples,
        ),
    }
}

/// An expression that must be there.
pub fn required<D: Deeper>(
    deeper: &D,
    terms: &Terms<'_>,
    progress: Progress,
    relation: u32,
    columns: &[Ty],
    expr: &Option<RawExpr>,
) -> Result<(Expr, Progress), CheckError>
    requires { D.is_ready deeper.now }
    ensures { Comes result (spec.required (over relation columns.now) (option_map (checked_expr terms.now) expr.now) progress) }
{
    match expr {
        None => refuse(relation, Rule::MissingField),
        Some(expr) => deeper.expression(terms, progress, relation, columns, expr),
    }
}

/// The same behind a box.
pub(crate) fn required_box<D: Deeper>(
    deeper: &D,
    terms: &Terms<'_>,
    progress: Progress,
    relation: u32,
    columns: &[Ty],
    expr: &Option<Boxed<RawExpr>>,
) -> Result<(Expr, Progress), CheckError>
    requires { D.is_ready deeper.now }
    ensures { Comes result (spec.required (over relation columns.now) (option_map (checked_expr terms.now) expr.now) progress) }
{
    match expr {
        None => refuse(relation, Rule::MissingField),
        Some(expr) => deeper.expression(terms, progress, relation, columns, expr.get()),
    }
}

/// What is checked, which must be of the kind.
pub(crate) fn of_kind(
    relation: u32,
    kind: Kind,
    checked: (Expr, Progress),
) -> Result<(Expr, Progress), CheckError>
    ensures { Comes result (parts.of_kind relation kind checked.0 checked.1) }
{
    let is_of_kind = is_equal_kind(kind_of(&checked.0), kind);
    Ok(must(relation, is_of_kind, Rule::TypeMismatch, checked)?)
}

/// A condition that must be there.
pub fn condition<D: Deeper>(
    deeper: &D,
    terms: &Terms<'_>,
    progress: Progress,
    relation: u32,
    columns: &[Ty],
    expr: &Option<RawExpr>,
) -> Result<(Expr, Progress), CheckError>
    requires { D.is_ready deeper.now }
    ensures { Comes result (spec.condition (over relation columns.now) (option_map (checked_expr terms.now) expr.now) progress) }
{
    let checked = required(deeper, terms, progress, relation, columns, expr)?;
    of_kind(relation, Kind::Bool, checked)
}

/// The same behind a box.
pub fn condition_box<D: Deeper>(
    deeper: &D,
    terms: &Terms<'_>,
    progress: Progress,
    relation: u32,
    columns: &[Ty],
    expr: &Option<Boxed<RawExpr>>,
) -> Result<(Expr, Progress), CheckError>
    requires { D.is_ready deeper.now }
    ensures { Comes result (spec.condition (over relation columns.now) (option_map (checked_expr terms.now) expr.now) progress) }
{
    let checked = required_box(deeper, terms, progress, relation, columns, expr)?;
    of_kind(relation, Kind::Bool, checked)
}

/// A condition that may be absent.
pub fn maybe_condition<D: Deeper>(
    deeper: &D,
    terms: &Terms<'_>,
    progress: Progress,
    relation: u32,
    columns: &[Ty],
    expr: &Option<Boxed<RawExpr>>,
) -> Result<(Option<Expr>, Progress), CheckError>
    requires { D.is_ready deeper.now }
    ensures { Comes result (rels.maybe_condition (over relation columns.now) (option_map (checked_expr terms.now) expr.now) progress) }
{
    match expr {
        None => Ok((None, progress)),
        Some(_) => {
            let (expr, progress) = condition_box(deeper, terms, progress, relation, columns, expr)?;
            Ok((Some(expr), progress))
        }
    }
}

/// Each of these expressions, in order.
pub fn each_in<D: Deeper>(
    deeper: &D,
    terms: &Terms<'_>,
    progress: Progress,
    relation: u32,
    columns: &[Ty],
    exprs: &[RawExpr],
) -> Result<(Items<Expr>, Progress), CheckError>
    requires { D.is_ready deeper.now }
    ensures { Comes result (spec.each_in (over relation columns.now) (map (checked_expr terms.now) exprs.now) progress) }
{
    each_of(terms.alloc(), progress, exprs, |progress, expr| {
        deeper.expression(terms, progress, relation, columns, expr)
    })
}

/// A subquery without a member.
fn without_member(
    terms: &Terms<'_>,
    progress: Progress,
    relation: u32,
) -> Result<(Expr, Progress), CheckError>
    ensures { (columns : List Column) → Comes result (spec.where_taken terms.now (over relation columns) (checking.refuse relation MissingField) progress) }
{
    if !terms.takes_subqueries() {
        return refuse(relation, Rule::UnsupportedForm);
    }
    refuse(relation, Rule::MissingField)
}
