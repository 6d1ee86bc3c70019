// The fields of expressions and of what stands in them, each in the order in which they are written.
ghost use Rattle.std.specs.Prelude.{◌≡◌, IfOk};
ghost use Rattle.plan_spell.specs.Exprs as tables;
ghost use Rattle.plan_raw.specs.declared.argument.FunctionArgument.{out-FunctionArgument};
ghost use Rattle.plan_raw.specs.declared.expr.RawExpr.{out-RawExpr};
ghost use Rattle.spell_tree.specs.Seen.{expr_parts_as, tree_parts_seen};

use crate::part::{ExprRole, RelRole, TreePart, TreesRef};
use plan_raw::{FunctionArgument, IfClause, IfValue, RawExpr};
use spell_leaves::{
    HeldRef, MessagesRef, PartRef, block_member, boxed, listed, messages, optional, presence,
    uint32,
};
use std::alloc::Global;
use std::slice;
use sub_types::NoMemory;

// FunctionArgument
pub(crate) fn argument_parts<'a>(
    alloc: Global,
    argument: &'a FunctionArgument,
) -> Result<Vec<TreePart<'a>>, NoMemory>
    ensures { IfOk result (λ parts. tree_parts_seen parts.items ≡ tables.argument_parts (out-FunctionArgument argument.now)) }
{
    match argument {
        FunctionArgument::Missing => Ok(Vec::new(alloc)),
        FunctionArgument::Enum(name) => listed(
            alloc,
            [TreePart::Leaf(block_member(1, name.bytes()))],
        ),
        FunctionArgument::TypeArgument(ty) => {
            listed(
                alloc,
                [TreePart::Leaf(messages(2, MessagesRef::DataType(slice::from_ref(ty))))],
            )
        }
        FunctionArgument::Value(value) => {
            listed(
                alloc,
                [TreePart::Trees(
                    3,
                    TreesRef::Exprs(ExprRole::Expression, slice::from_ref(value)),
                )],
            )
        }
    }
}

// FieldReference
fn reference_parts<'a>(alloc: Global, expr: &'a RawExpr) -> Result<Vec<TreePart<'a>>, NoMemory>
    ensures { IfOk result (λ parts. tree_parts_seen parts.items ≡ tables.reference_parts (out-RawExpr expr.now)) }
{
    match expr {
        RawExpr::Selection {
            direct_reference,
            root_reference,
            other,
        } => listed(
            alloc,
            [
                TreePart::Leaf(messages(
                    1,
                    MessagesRef::ReferenceSegment(optional(direct_reference)),
                )),
                TreePart::Leaf(PartRef {
                    number: 2,
                    held: HeldRef::EmptyBlock(*other),
                }),
                TreePart::Leaf(presence(4, *root_reference)),
            ],
        ),
        _ => Ok(Vec::new(alloc)),
    }
}

// Expression.ScalarFunction
fn scalar_function_parts<'a>(
    alloc: Global,
    expr: &'a RawExpr,
) -> Result<Vec<TreePart<'a>>, NoMemory>
    ensures { IfOk result (λ parts. tree_parts_seen parts.items ≡ tables.scalar_function_parts (out-RawExpr expr.now)) }
{
    match expr {
        RawExpr::ScalarFunction {
            function_reference,
            output_type,
            arguments,
            options,
        } => listed(
            alloc,
            [
                TreePart::Leaf(uint32(1, *function_reference)),
                TreePart::Leaf(messages(3, MessagesRef::DataType(optional(output_type)))),
                TreePart::Trees(4, TreesRef::FunctionArgument(arguments)),
                TreePart::Leaf(messages(5, MessagesRef::FunctionOption(options.as_slice()))),
            ],
        ),
        _ => Ok(Vec::new(alloc)),
    }
}

// Expression.IfThen
fn if_then_parts<'a>(alloc: Global, expr: &'a RawExpr) -> Result<Vec<TreePart<'a>>, NoMemory>
    ensures { IfOk result (λ parts. tree_parts_seen parts.items ≡ tables.if_then_parts (out-RawExpr expr.now)) }
{
    match expr {
        RawExpr::IfThen { ifs, else_ } => listed(
            alloc,
            [
                TreePart::Trees(1, TreesRef::IfClause(ifs)),
                TreePart::Trees(2, TreesRef::Exprs(ExprRole::Expression, boxed(else_))),
            ],
        ),
        _ => Ok(Vec::new(alloc)),
    }
}

// its IfClause
pub(crate) fn if_clause_parts<'a>(
    alloc: Global,
    clause: &'a IfClause,
) -> Result<Vec<TreePart<'a>>, NoMemory>
    ensures { IfOk result (λ parts. tree_parts_seen parts.items ≡ tables.if_clause_parts clause.now) }
{
    listed(
        alloc,
        [
            TreePart::Trees(
                1,
                TreesRef::Exprs(ExprRole::Expression, optional(&clause.if_)),
            ),
            TreePart::Trees(
                2,
                TreesRef::Exprs(ExprRole::Expression, optional(&clause.then)),
            ),
        ],
    )
}

// Expression.SwitchExpression
fn switch_parts<'a>(alloc: Global, expr: &'a RawExpr) -> Result<Vec<TreePart<'a>>, NoMemory>
    ensures { IfOk result (λ parts. tree_parts_seen parts.items ≡ tables.switch_parts (out-RawExpr expr.now)) }
{
    match expr {
        RawExpr::SwitchExpression { ifs, else_, match_ } => listed(
            alloc,
            [
                TreePart::Trees(1, TreesRef::IfValue(ifs)),
                TreePart::Trees(2, TreesRef::Exprs(ExprRole::Expression, boxed(else_))),
                TreePart::Trees(3, TreesRef::Exprs(ExprRole::Expression, boxed(match_))),
            ],
        ),
        _ => Ok(Vec::new(alloc)),
    }
}

// its IfValue
pub(crate) fn if_value_parts<'a>(
    alloc: Global,
    value: &'a IfValue,
) -> Result<Vec<TreePart<'a>>, NoMemory>
    ensures { IfOk result (λ parts. tree_parts_seen parts.items ≡ tables.if_value_parts value.now) }
{
    listed(
        alloc,
        [
            TreePart::Leaf(messages(1, MessagesRef::Literal(optional(&value.if_)))),
            TreePart::Trees(
                2,
                TreesRef::Exprs(ExprRole::Expression, optional(&value.then)),
            ),
        ],
    )
}

// Expression.SingularOrList
fn singular_or_list_parts<'a>(
    alloc: Global,
    expr: &'a RawExpr,
) -> Result<Vec<TreePart<'a>>, NoMemory>
    ensures { IfOk result (λ parts. tree_parts_seen parts.items ≡ tables.singular_or_list_parts (out-RawExpr expr.now)) }
{
    match expr {
        RawExpr::SingularOrList { value, options } => listed(
            alloc,
            [
                TreePart::Trees(1, TreesRef::Exprs(ExprRole::Expression, boxed(value))),
                TreePart::Trees(2, TreesRef::Exprs(ExprRole::Expression, options.as_slice())),
            ],
        ),
        _ => Ok(Vec::new(alloc)),
    }
}

// Expression.Cast
fn cast_parts<'a>(alloc: Global, expr: &'a RawExpr) -> Result<Vec<TreePart<'a>>, NoMemory>
    ensures { IfOk result (λ parts. tree_parts_seen parts.items ≡ tables.cast_parts (out-RawExpr expr.now)) }
{
    match expr {
        RawExpr::Cast {
            type_,
            input,
            failure_behavior,
        } => listed(
            alloc,
            [
                TreePart::Leaf(messages(1, MessagesRef::DataType(optional(type_)))),
                TreePart::Trees(2, TreesRef::Exprs(ExprRole::Expression, boxed(input))),
                TreePart::Leaf(uint32(3, *failure_behavior)),
            ],
        ),
        _ => Ok(Vec::new(alloc)),
    }
}

// Expression.Subquery
fn subquery_parts<'a>(alloc: Global, expr: &'a RawExpr) -> Result<Vec<TreePart<'a>>, NoMemory>
    ensures { IfOk result (λ parts. tree_parts_seen parts.items ≡ tables.subquery_parts expr.now (out-RawExpr expr.now)) }
{
    match expr {
        RawExpr::Scalar { .. } => listed(
            alloc,
            [TreePart::Trees(1, TreesRef::Exprs(ExprRole::Scalar, slice::from_ref(expr)))],
        ),
        RawExpr::InPredicate { .. } => listed(
            alloc,
            [TreePart::Trees(
                2,
                TreesRef::Exprs(ExprRole::InPredicate, slice::from_ref(expr)),
            )],
        ),
        RawExpr::SetPredicate { .. } => listed(
            alloc,
            [TreePart::Trees(
                3,
                TreesRef::Exprs(ExprRole::SetPredicate, slice::from_ref(expr)),
            )],
        ),
        RawExpr::SetComparison => listed(
            alloc,
            [TreePart::Leaf(PartRef {
                number: 4,
                held: HeldRef::EmptyBlock(true),
            })],
        ),
        _ => Ok(Vec::new(alloc)),
    }
}

// Expression.Subquery.Scalar
fn scalar_parts<'a>(alloc: Global, expr: &'a RawExpr) -> Result<Vec<TreePart<'a>>, NoMemory>
    ensures { IfOk result (λ parts. tree_parts_seen parts.items ≡ tables.scalar_parts (out-RawExpr expr.now)) }
{
    match expr {
        RawExpr::Scalar { input } => listed(
            alloc,
            [TreePart::Trees(1, TreesRef::Rels(RelRole::Rel, boxed(input)))],
        ),
        _ => Ok(Vec::new(alloc)),
    }
}

// Expression.Subquery.InPredicate
fn in_predicate_parts<'a>(alloc: Global, expr: &'a RawExpr) -> Result<Vec<TreePart<'a>>, NoMemory>
    ensures { IfOk result (λ parts. tree_parts_seen parts.items ≡ tables.in_predicate_parts (out-RawExpr expr.now)) }
{
    match expr {
        RawExpr::InPredicate { needles, haystack } => listed(
            alloc,
            [
                TreePart::Trees(1, TreesRef::Exprs(ExprRole::Expression, needles.as_slice())),
                TreePart::Trees(2, TreesRef::Rels(RelRole::Rel, boxed(haystack))),
            ],
        ),
        _ => Ok(Vec::new(alloc)),
    }
}

// Expression.Subquery.SetPredicate
fn set_predicate_parts<'a>(alloc: Global, expr: &'a RawExpr) -> Result<Vec<TreePart<'a>>, NoMemory>
    ensures { IfOk result (λ parts. tree_parts_seen parts.items ≡ tables.set_predicate_parts (out-RawExpr expr.now)) }
{
    match expr {
        RawExpr::SetPredicate {
            predicate_op,
            tuples,
        } => listed(
            alloc,
            [
                TreePart::Leaf(uint32(1, *predicate_op)),
                TreePart::Trees(2, TreesRef::Rels(RelRole::Rel, boxed(tuples))),
            ],
        ),
        _ => Ok(Vec::new(alloc)),
    }
}

// Expression
fn expression_parts<'a>(alloc: Global, expr: &'a RawExpr) -> Result<Vec<TreePart<'a>>, NoMemory>
    ensures { IfOk result (λ parts. tree_parts_seen parts.items ≡ tables.expression_parts expr.now (out-RawExpr expr.now)) }
{
    match expr {
        RawExpr::Missing | RawExpr::Unknown { .. } => Ok(Vec::new(alloc)),
        RawExpr::Literal(literal) => listed(
            alloc,
            [TreePart::Leaf(messages(1, MessagesRef::Literal(slice::from_ref(literal))))],
        ),
        RawExpr::Selection { .. } => listed(
            alloc,
            [TreePart::Trees(
                2,
                TreesRef::Exprs(ExprRole::FieldReference, slice::from_ref(expr)),
            )],
        ),
        RawExpr::ScalarFunction { .. } => listed(
            alloc,
            [TreePart::Trees(
                3,
                TreesRef::Exprs(ExprRole::ScalarFunction, slice::from_ref(expr)),
            )],
        ),
        RawExpr::IfThen { .. } => listed(
            alloc,
            [TreePart::Trees(6, TreesRef::Exprs(ExprRole::IfThen, slice::from_ref(expr)))],
        ),
        RawExpr::SwitchExpression { .. } => listed(
            alloc,
            [TreePart::Trees(7, TreesRef::Exprs(ExprRole::Switch, slice::from_ref(expr)))],
        ),
        RawExpr::SingularOrList { .. } => listed(
            alloc,
            [TreePart::Trees(
                8,
                TreesRef::Exprs(ExprRole::SingularOrList, slice::from_ref(expr)),
            )],
        ),
        RawExpr::Cast { .. } => listed(
            alloc,
            [TreePart::Trees(11, TreesRef::Exprs(ExprRole::Cast, slice::from_ref(expr)))],
        ),
        RawExpr::SubqueryMissing
        | RawExpr::SubqueryUnknown { .. }
        | RawExpr::Scalar { .. }
        | RawExpr::InPredicate { .. }
        | RawExpr::SetPredicate { .. }
        | RawExpr::SetComparison => listed(
            alloc,
            [TreePart::Trees(
                12,
                TreesRef::Exprs(ExprRole::Subquery, slice::from_ref(expr)),
            )],
        ),
    }
}

// an expression as one of its messages
pub(crate) fn parts_as<'a>(
    alloc: Global,
    role: ExprRole,
    expr: &'a RawExpr,
) -> Result<Vec<TreePart<'a>>, NoMemory>
    ensures { IfOk result (λ parts. tree_parts_seen parts.items ≡ expr_parts_as role expr.now) }
{
    match role {
        ExprRole::Expression => expression_parts(alloc, expr),
        ExprRole::ScalarFunction => scalar_function_parts(alloc, expr),
        ExprRole::FieldReference => reference_parts(alloc, expr),
        ExprRole::IfThen => if_then_parts(alloc, expr),
        ExprRole::Switch => switch_parts(alloc, expr),
        ExprRole::SingularOrList => singular_or_list_parts(alloc, expr),
        ExprRole::Cast => cast_parts(alloc, expr),
        ExprRole::Subquery => subquery_parts(alloc, expr),
        ExprRole::Scalar => scalar_parts(alloc, expr),
        ExprRole::InPredicate => in_predicate_parts(alloc, expr),
        ExprRole::SetPredicate => set_predicate_parts(alloc, expr),
    }
}
