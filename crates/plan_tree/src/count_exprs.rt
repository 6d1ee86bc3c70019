// How many relations expressions hold, in their subqueries, counted up to a limit.
ghost use Rattle.std.specs.Prelude.{◌≡◌, ◌+◌, ◌≤◌, min, sum_by};
ghost use Rattle.std.specs.Option.{option_map};
ghost use Rattle.plan_tree.specs.Numbering as numbering;

use crate::count::input_from;
use plan_leaves::Boxed;
use plan_raw::{FunctionArgument, IfClause, IfValue, RawExpr};

#[cycle(count)]
pub(crate) fn expr_from(seen: u32, limit: u32, expr: &RawExpr) -> u32
    requires { seen ≤ limit }
    ensures { result ≡ min limit (seen + numbering.count_in_expression expr.now) }
{
    match expr {
        RawExpr::Missing
        | RawExpr::Unknown { .. }
        | RawExpr::Literal(_)
        | RawExpr::Selection { .. }
        | RawExpr::SubqueryMissing
        | RawExpr::SubqueryUnknown { .. }
        | RawExpr::SetComparison => seen,
        RawExpr::ScalarFunction { arguments, .. } => {
            arguments_from(seen, limit, arguments.as_slice())
        }
        RawExpr::IfThen { ifs, else_ } => {
            let seen = clauses_from(seen, limit, ifs.as_slice());
            boxed_from(seen, limit, else_)
        }
        RawExpr::SwitchExpression { ifs, else_, match_ } => {
            let seen = boxed_from(seen, limit, match_);
            let seen = values_from(seen, limit, ifs.as_slice());
            boxed_from(seen, limit, else_)
        }
        RawExpr::SingularOrList { value, options } => {
            let seen = boxed_from(seen, limit, value);
            exprs_from(seen, limit, options.as_slice())
        }
        RawExpr::Cast { input, .. } => boxed_from(seen, limit, input),
        RawExpr::Scalar { input } => input_from(seen, limit, input),
        RawExpr::InPredicate { needles, haystack } => {
            let seen = exprs_from(seen, limit, needles.as_slice());
            input_from(seen, limit, haystack)
        }
        RawExpr::SetPredicate { tuples, .. } => input_from(seen, limit, tuples),
    }
}

#[cycle(count)]
pub(crate) fn boxed_from(seen: u32, limit: u32, expr: &Option<Boxed<RawExpr>>) -> u32
    requires { seen ≤ limit }
    ensures { result ≡ min limit (seen + numbering.held (option_map numbering.count_in_expression expr.now)) }
{
    match expr {
        None => seen,
        Some(expr) => expr_from(seen, limit, expr.get()),
    }
}

#[cycle(count)]
pub(crate) fn option_from(seen: u32, limit: u32, expr: &Option<RawExpr>) -> u32
    requires { seen ≤ limit }
    ensures { result ≡ min limit (seen + numbering.held (option_map numbering.count_in_expression expr.now)) }
{
    match expr {
        None => seen,
        Some(expr) => expr_from(seen, limit, expr),
    }
}

#[cycle(count)]
pub(crate) fn exprs_from(seen: u32, limit: u32, exprs: &[RawExpr]) -> u32
    requires { seen ≤ limit }
    ensures { result ≡ min limit (seen + sum_by numbering.count_in_expression exprs.now) }
{
    let mut seen = seen;
    for expr in exprs {
        seen = expr_from(seen, limit, expr);
    }
    seen
}

#[cycle(count)]
pub(crate) fn arguments_from(seen: u32, limit: u32, arguments: &[FunctionArgument]) -> u32
    requires { seen ≤ limit }
    ensures { result ≡ min limit (seen + sum_by numbering.count_in_argument arguments.now) }
{
    let mut seen = seen;
    for argument in arguments {
        seen = argument_from(seen, limit, argument);
    }
    seen
}

#[cycle(count)]
fn argument_from(seen: u32, limit: u32, argument: &FunctionArgument) -> u32
    requires { seen ≤ limit }
    ensures { result ≡ min limit (seen + numbering.count_in_argument argument.now) }
{
    match argument {
        FunctionArgument::Missing | FunctionArgument::Enum(_) | FunctionArgument::TypeArgument(_) =>
            seen,
        FunctionArgument::Value(value) => expr_from(seen, limit, value),
    }
}

#[cycle(count)]
fn clauses_from(seen: u32, limit: u32, clauses: &[IfClause]) -> u32
    requires { seen ≤ limit }
    ensures { result ≡ min limit (seen + sum_by numbering.count_in_clause clauses.now) }
{
    let mut seen = seen;
    for clause in clauses {
        seen = clause_from(seen, limit, clause);
    }
    seen
}

#[cycle(count)]
fn clause_from(seen: u32, limit: u32, clause: &IfClause) -> u32
    requires { seen ≤ limit }
    ensures { result ≡ min limit (seen + numbering.count_in_clause clause.now) }
{
    let seen = option_from(seen, limit, &clause.if_);
    option_from(seen, limit, &clause.then)
}

#[cycle(count)]
fn values_from(seen: u32, limit: u32, values: &[IfValue]) -> u32
    requires { seen ≤ limit }
    ensures { result ≡ min limit (seen + sum_by numbering.count_in_value values.now) }
{
    let mut seen = seen;
    for value in values {
        seen = option_from(seen, limit, &value.then);
    }
    seen
}
