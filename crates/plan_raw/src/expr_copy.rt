// Copies of the untyped tree's expressions.
ghost use Rattle.std.specs.Prelude.{◌≡◌, IfOk};

use crate::rel_copy::copy_input;
use crate::{FunctionArgument, IfClause, IfValue, RawExpr};
use plan_leaves::{Boxed, CopyIn, Items, zip};
use std::alloc::Global;
use sub_types::NoMemory;

#[cycle(raw_copy)]
pub(crate) fn copy_expr(alloc: Global, expr: &RawExpr) -> Result<RawExpr, NoMemory>
    ensures { IfOk result (λ copy. copy ≡ expr.now) }
{
    match expr {
        RawExpr::Missing => Ok(RawExpr::Missing),
        RawExpr::Unknown { number } => Ok(RawExpr::Unknown { number: *number }),
        RawExpr::Literal(literal) => Ok(RawExpr::Literal(literal.copy_in(alloc)?)),
        RawExpr::Selection {
            direct_reference,
            root_reference,
            other,
        } => Ok(RawExpr::Selection {
            direct_reference: *direct_reference,
            root_reference: *root_reference,
            other: *other,
        }),
        RawExpr::ScalarFunction {
            function_reference,
            output_type,
            arguments,
            options,
        } => {
            let copies = copy_arguments(alloc, arguments.as_slice());
            let ((arguments, options), output_type) = zip(
                zip(copies, options.copy_in(alloc)),
                output_type.copy_in(alloc),
            )?;
            Ok(RawExpr::ScalarFunction {
                function_reference: *function_reference,
                output_type,
                arguments,
                options,
            })
        }
        RawExpr::IfThen { ifs, else_ } => {
            let (ifs, else_) = zip(
                copy_clauses(alloc, ifs.as_slice()),
                copy_boxed(alloc, else_),
            )?;
            Ok(RawExpr::IfThen { ifs, else_ })
        }
        RawExpr::SwitchExpression { ifs, else_, match_ } => {
            let copies = copy_values(alloc, ifs.as_slice());
            let ((ifs, else_), match_) = zip(
                zip(copies, copy_boxed(alloc, else_)),
                copy_boxed(alloc, match_),
            )?;
            Ok(RawExpr::SwitchExpression { ifs, else_, match_ })
        }
        RawExpr::SingularOrList { value, options } => {
            let (value, options) = zip(
                copy_boxed(alloc, value),
                copy_exprs(alloc, options.as_slice()),
            )?;
            Ok(RawExpr::SingularOrList { value, options })
        }
        RawExpr::Cast {
            type_,
            input,
            failure_behavior,
        } => {
            let (type_, input) = zip(type_.copy_in(alloc), copy_boxed(alloc, input))?;
            Ok(RawExpr::Cast {
                type_,
                input,
                failure_behavior: *failure_behavior,
            })
        }
        RawExpr::SubqueryMissing => Ok(RawExpr::SubqueryMissing),
        RawExpr::SubqueryUnknown { number } => Ok(RawExpr::SubqueryUnknown { number: *number }),
        RawExpr::Scalar { input } => Ok(RawExpr::Scalar {
            input: copy_input(alloc, input)?,
        }),
        RawExpr::InPredicate { needles, haystack } => {
            let (needles, haystack) = zip(
                copy_exprs(alloc, needles.as_slice()),
                copy_input(alloc, haystack),
            )?;
            Ok(RawExpr::InPredicate { needles, haystack })
        }
        RawExpr::SetPredicate {
            predicate_op,
            tuples,
        } => Ok(RawExpr::SetPredicate {
            predicate_op: *predicate_op,
            tuples: copy_input(alloc, tuples)?,
        }),
        RawExpr::SetComparison => Ok(RawExpr::SetComparison),
    }
}

#[cycle(raw_copy)]
pub(crate) fn copy_boxed(
    alloc: Global,
    expr: &Option<Boxed<RawExpr>>,
) -> Result<Option<Boxed<RawExpr>>, NoMemory>
    ensures { IfOk result (λ copy. copy ≡ expr.now) }
{
    match expr {
        None => Ok(None),
        Some(expr) => Ok(Some(Boxed::new(alloc, copy_expr(alloc, expr.get())?)?)),
    }
}

#[cycle(raw_copy)]
pub(crate) fn copy_option(
    alloc: Global,
    expr: &Option<RawExpr>,
) -> Result<Option<RawExpr>, NoMemory>
    ensures { IfOk result (λ copy. copy ≡ expr.now) }
{
    match expr {
        None => Ok(None),
        Some(expr) => Ok(Some(copy_expr(alloc, expr)?)),
    }
}

#[cycle(raw_copy)]
pub(crate) fn copy_exprs(alloc: Global, exprs: &[RawExpr]) -> Result<Items<RawExpr>, NoMemory>
    ensures { IfOk result (λ copies. copies ≡ exprs.now) }
{
    let mut copies = Vec::with_capacity(alloc, exprs.len())?;
    for expr in exprs {
        copies.push(copy_expr(alloc, expr)?)?;
    }
    Ok(Items::from_vec(copies))
}

#[cycle(raw_copy)]
fn copy_argument(alloc: Global, argument: &FunctionArgument) -> Result<FunctionArgument, NoMemory>
    ensures { IfOk result (λ copy. copy ≡ argument.now) }
{
    match argument {
        FunctionArgument::Missing => Ok(FunctionArgument::Missing),
        FunctionArgument::Enum(name) => Ok(FunctionArgument::Enum(name.copy_in(alloc)?)),
        FunctionArgument::TypeArgument(ty) => Ok(FunctionArgument::TypeArgument(ty.copy_in(
            alloc,
        )?)),
        FunctionArgument::Value(value) => Ok(FunctionArgument::Value(copy_expr(alloc, value)?)),
    }
}

#[cycle(raw_copy)]
pub(crate) fn copy_arguments(
    alloc: Global,
    arguments: &[FunctionArgument],
) -> Result<Items<FunctionArgument>, NoMemory>
    ensures { IfOk result (λ copies. copies ≡ arguments.now) }
{
    let mut copies = Vec::with_capacity(alloc, arguments.len())?;
    for argument in arguments {
        copies.push(copy_argument(alloc, argument)?)?;
    }
    Ok(Items::from_vec(copies))
}

#[cycle(raw_copy)]
fn copy_clause(alloc: Global, clause: &IfClause) -> Result<IfClause, NoMemory>
    ensures { IfOk result (λ copy. copy ≡ clause.now) }
{
    let (if_, then) = zip(
        copy_option(alloc, &clause.if_),
        copy_option(alloc, &clause.then),
    )?;
    Ok(IfClause { if_, then })
}

#[cycle(raw_copy)]
fn copy_clauses(alloc: Global, clauses: &[IfClause]) -> Result<Items<IfClause>, NoMemory>
    ensures { IfOk result (λ copies. copies ≡ clauses.now) }
{
    let mut copies = Vec::with_capacity(alloc, clauses.len())?;
    for clause in clauses {
        copies.push(copy_clause(alloc, clause)?)?;
    }
    Ok(Items::from_vec(copies))
}

#[cycle(raw_copy)]
fn copy_value(alloc: Global, value: &IfValue) -> Result<IfValue, NoMemory>
    ensures { IfOk result (λ copy. copy ≡ value.now) }
{
    let (if_, then) = zip(value.if_.copy_in(alloc), copy_option(alloc, &value.then))?;
    Ok(IfValue { if_, then })
}

#[cycle(raw_copy)]
fn copy_values(alloc: Global, values: &[IfValue]) -> Result<Items<IfValue>, NoMemory>
    ensures { IfOk result (λ copies. copies ≡ values.now) }
{
    let mut copies = Vec::with_capacity(alloc, values.len())?;
    for value in values {
        copies.push(copy_value(alloc, value)?)?;
    }
    Ok(Items::from_vec(copies))
}
