// Expressions (Substrait `Expression`).
ghost use Rattle.std.specs.Prelude.{◌≡◌, IfOk};
ghost use Rattle.pb_wire.specs.Payloads.{fields_of};
ghost use Rattle.plan_scan.specs.Table.{HoldsMessage};
ghost use Rattle.plan_parts.specs.Shapes.{children};
ghost use Rattle.plan_parts.specs.Exprs as exprs;
ghost use Rattle.plan_parts.specs.CanRead.{CanRead};
ghost use Rattle.plan_parts.specs.Reader.{reader};
ghost use Rattle.plan_exprs.specs.Member.{expr_in};

use crate::subquery::subquery;
use plan_leaves::{Items, zip};
use plan_parts::{
    Deeper, arguments_at, boxed_expr_at, expr_at, exprs_at, literal_at, literal_of, options_at,
    selection, type_at,
};
use plan_raw::{IfClause, IfValue, RawExpr};
use plan_scan::{Choice, Message, OneOf, Shape, field};
use std::alloc::Global;
use sub_types::NoMemory;

/// An `Expression`, whose relations and expressions are read by another reader.
pub fn expression_by<D: Deeper>(
    alloc: Global,
    deeper: &D,
    choice: &Choice<'_>,
) -> Result<RawExpr, NoMemory>
    requires oneof { choice.now.oneof ≡ OneOf.RexType }
    requires deeper { CanRead D.Deeper deeper.now choice.now.below }
    ensures { IfOk result (λ expr. expr ≡ exprs.expression_by (reader choice.now.below) (fields_of choice.now.bytes)) }
{
    match choice.winner() {
        None => Ok(RawExpr::Missing),
        Some((number, None)) => Ok(RawExpr::Unknown { number }),
        Some((number, Some(message))) => member(alloc, deeper, number, &message),
    }
}

// The message of the member of this number.
fn member<D: Deeper>(
    alloc: Global,
    deeper: &D,
    number: u32,
    message: &Message<'_>,
) -> Result<RawExpr, NoMemory>
    requires shape { HoldsMessage Shape.Expression number message.now.shape }
    requires deeper { CanRead D.Deeper deeper.now message.now.below }
    ensures { IfOk result (λ expr. expr ≡ expr_in (reader message.now.below) number (fields_of message.now.bytes)) }
{
    match number {
        field::expression::LITERAL => Ok(RawExpr::Literal(literal_of(alloc, message)?)),
        field::expression::SELECTION => selection(alloc, message),
        field::expression::SCALAR_FUNCTION => scalar_function(alloc, deeper, message),
        field::expression::IF_THEN => if_then(alloc, deeper, message),
        field::expression::SWITCH_EXPRESSION => switch(alloc, deeper, message),
        field::expression::SINGULAR_OR_LIST => singular_or_list(alloc, deeper, message),
        field::expression::CAST => cast(alloc, deeper, message),
        field::expression::SUBQUERY => subquery(alloc, deeper, message),
        _ => Ok(RawExpr::Unknown { number }),
    }
}

fn scalar_function<D: Deeper>(
    alloc: Global,
    deeper: &D,
    message: &Message<'_>,
) -> Result<RawExpr, NoMemory>
    requires shape { message.now.shape ≡ Shape.ScalarFunction }
    requires deeper { CanRead D.Deeper deeper.now message.now.below }
    ensures { IfOk result (λ expr. expr ≡ exprs.scalar_function_by (reader message.now.below) (fields_of message.now.bytes)) }
{
    let (output_type, (arguments, options)) = zip(
        type_at(alloc, message, field::scalar_function::OUTPUT_TYPE),
        zip(
            arguments_at(alloc, deeper, message, field::scalar_function::ARGUMENTS),
            options_at(alloc, message, field::scalar_function::OPTIONS),
        ),
    )?;
    Ok(RawExpr::ScalarFunction {
        function_reference: message.uint32(field::scalar_function::FUNCTION_REFERENCE),
        output_type,
        arguments,
        options,
    })
}

fn if_then<D: Deeper>(alloc: Global, deeper: &D, message: &Message<'_>) -> Result<RawExpr, NoMemory>
    requires shape { message.now.shape ≡ Shape.IfThen }
    requires deeper { CanRead D.Deeper deeper.now message.now.below }
    ensures { IfOk result (λ expr. expr ≡ exprs.if_then_by (reader message.now.below) (fields_of message.now.bytes)) }
{
    let (ifs, else_) = zip(
        if_clauses_at(alloc, deeper, message, field::if_then::IFS),
        boxed_expr_at(alloc, deeper, message, field::if_then::ELSE),
    )?;
    Ok(RawExpr::IfThen { ifs, else_ })
}

fn if_clauses_at<D: Deeper>(
    alloc: Global,
    deeper: &D,
    message: &Message<'_>,
    number: u32,
) -> Result<Items<IfClause>, NoMemory>
    requires shape { HoldsMessage message.now.shape number Shape.IfClause }
    requires deeper { CanRead D.Deeper deeper.now message.now.below }
    ensures { IfOk result (λ clauses. clauses ≡ children (reader message.now.below) Shape.IfClause number (fields_of message.now.bytes)) }
{
    let mut clauses = Vec::new(alloc);
    let mut left = message.children(number, Shape::IfClause);
    while let Some(found) = left.next() {
        clauses.push(if_clause(alloc, deeper, &found)?)?;
    }
    Ok(Items::from_vec(clauses))
}

fn if_clause<D: Deeper>(
    alloc: Global,
    deeper: &D,
    message: &Message<'_>,
) -> Result<IfClause, NoMemory>
    requires shape { message.now.shape ≡ Shape.IfClause }
    requires deeper { CanRead D.Deeper deeper.now message.now.below }
    ensures { IfOk result (λ clause. clause ≡ exprs.if_clause_by (reader message.now.below) (fields_of message.now.bytes)) }
{
    let (if_, then) = zip(
        expr_at(alloc, deeper, message, field::if_clause::IF),
        expr_at(alloc, deeper, message, field::if_clause::THEN),
    )?;
    Ok(IfClause { if_, then })
}

fn switch<D: Deeper>(alloc: Global, deeper: &D, message: &Message<'_>) -> Result<RawExpr, NoMemory>
    requires shape { message.now.shape ≡ Shape.SwitchExpression }
    requires deeper { CanRead D.Deeper deeper.now message.now.below }
    ensures { IfOk result (λ expr. expr ≡ exprs.switch_by (reader message.now.below) (fields_of message.now.bytes)) }
{
    let (ifs, (else_, match_)) = zip(
        if_values_at(alloc, deeper, message, field::switch_expression::IFS),
        zip(
            boxed_expr_at(alloc, deeper, message, field::switch_expression::ELSE),
            boxed_expr_at(alloc, deeper, message, field::switch_expression::MATCH),
        ),
    )?;
    Ok(RawExpr::SwitchExpression { ifs, else_, match_ })
}

fn if_values_at<D: Deeper>(
    alloc: Global,
    deeper: &D,
    message: &Message<'_>,
    number: u32,
) -> Result<Items<IfValue>, NoMemory>
    requires shape { HoldsMessage message.now.shape number Shape.IfValue }
    requires deeper { CanRead D.Deeper deeper.now message.now.below }
    ensures { IfOk result (λ values. values ≡ children (reader message.now.below) Shape.IfValue number (fields_of message.now.bytes)) }
{
    let mut values = Vec::new(alloc);
    let mut left = message.children(number, Shape::IfValue);
    while let Some(found) = left.next() {
        values.push(if_value(alloc, deeper, &found)?)?;
    }
    Ok(Items::from_vec(values))
}

fn if_value<D: Deeper>(
    alloc: Global,
    deeper: &D,
    message: &Message<'_>,
) -> Result<IfValue, NoMemory>
    requires shape { message.now.shape ≡ Shape.IfValue }
    requires deeper { CanRead D.Deeper deeper.now message.now.below }
    ensures { IfOk result (λ value. value ≡ exprs.if_value_by (reader message.now.below) (fields_of message.now.bytes)) }
{
    let (if_, then) = zip(
        literal_at(alloc, message, field::if_value::IF),
        expr_at(alloc, deeper, message, field::if_value::THEN),
    )?;
    Ok(IfValue { if_, then })
}

fn singular_or_list<D: Deeper>(
    alloc: Global,
    deeper: &D,
    message: &Message<'_>,
) -> Result<RawExpr, NoMemory>
    requires shape { message.now.shape ≡ Shape.SingularOrList }
    requires deeper { CanRead D.Deeper deeper.now message.now.below }
    ensures { IfOk result (λ expr. expr ≡ exprs.singular_or_list_by (reader message.now.below) (fields_of message.now.bytes)) }
{
    let (value, options) = zip(
        boxed_expr_at(alloc, deeper, message, field::singular_or_list::VALUE),
        exprs_at(alloc, deeper, message, field::singular_or_list::OPTIONS),
    )?;
    Ok(RawExpr::SingularOrList { value, options })
}

fn cast<D: Deeper>(alloc: Global, deeper: &D, message: &Message<'_>) -> Result<RawExpr, NoMemory>
    requires shape { message.now.shape ≡ Shape.Cast }
    requires deeper { CanRead D.Deeper deeper.now message.now.below }
    ensures { IfOk result (λ expr. expr ≡ exprs.cast_by (reader message.now.below) (fields_of message.now.bytes)) }
{
    let (type_, input) = zip(
        type_at(alloc, message, field::cast::TYPE),
        boxed_expr_at(alloc, deeper, message, field::cast::INPUT),
    )?;
    Ok(RawExpr::Cast {
        type_,
        input,
        failure_behavior: message.uint32(field::cast::FAILURE_BEHAVIOR),
    })
}
