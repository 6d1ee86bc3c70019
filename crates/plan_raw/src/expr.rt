// Expressions as they are written (Substrait `Expression`).
use crate::{FunctionArgument, RawRel};
use plan_leaves::{Boxed, FunctionOption, Items, RawLiteral, RawType, ReferenceSegment};

/// An `Expression.IfThen.IfClause`.
#[cycle(raw)]
#[derive(Drop)]
pub struct IfClause {
    pub if_: Option<RawExpr>,
    pub then: Option<RawExpr>,
}

/// An `Expression.SwitchExpression.IfValue`.
#[cycle(raw)]
#[derive(Drop)]
pub struct IfValue {
    pub if_: Option<RawLiteral>,
    pub then: Option<RawExpr>,
}

/// An `Expression`, by the member of its oneof `rex_type`. An `Expression.Subquery` stands as the member of its own oneof,
/// `subquery_type`.
#[cycle(raw)]
#[derive(Drop)]
pub enum RawExpr {
    Missing,
    Unknown {
        number: u32,
    },
    Literal(RawLiteral),
    /// A `FieldReference`.
    Selection {
        direct_reference: Option<ReferenceSegment>,
        /// Of it only the presence is read.
        root_reference: bool,
        /// Whether one of the other forms of a reference stands there.
        other: bool,
    },
    ScalarFunction {
        function_reference: u32,
        output_type: Option<RawType>,
        arguments: Items<FunctionArgument>,
        options: Items<FunctionOption>,
    },
    IfThen {
        ifs: Items<IfClause>,
        else_: Option<Boxed<RawExpr>>,
    },
    SwitchExpression {
        ifs: Items<IfValue>,
        else_: Option<Boxed<RawExpr>>,
        match_: Option<Boxed<RawExpr>>,
    },
    SingularOrList {
        value: Option<Boxed<RawExpr>>,
        options: Items<RawExpr>,
    },
    Cast {
        type_: Option<RawType>,
        input: Option<Boxed<RawExpr>>,
        failure_behavior: u32,
    },
    /// A subquery without a member.
    SubqueryMissing,
    SubqueryUnknown {
        number: u32,
    },
    Scalar {
        input: Option<Boxed<RawRel>>,
    },
    InPredicate {
        needles: Items<RawExpr>,
        haystack: Option<Boxed<RawRel>>,
    },
    SetPredicate {
        predicate_op: u32,
        tuples: Option<Boxed<RawRel>>,
    },
    SetComparison,
}
