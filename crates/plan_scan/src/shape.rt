// The messages of a plan (Substrait's plan.proto, algebra.proto, type.proto and function.proto).

/// The messages whose fields are read, and what their payloads hold.
#[derive(Clone, Copy, Debug, PartialEq, Eq)]
pub enum Shape {
    /// A message of which only the presence is read: none of its fields is named.
    Empty,
    Plan,
    PlanRel,
    RelRoot,
    ExtensionUri,
    ExtensionDeclaration,
    ExtensionFunction,
    Rel,
    RelCommon,
    Emit,
    ReadRel,
    NamedStruct,
    /// `Type.Struct`.
    StructType,
    NamedTable,
    VirtualTable,
    /// `Expression.Literal.Struct`.
    LiteralRow,
    /// `Expression.Nested.Struct`.
    ExpressionRow,
    LocalFiles,
    FileItem,
    FilterRel,
    FetchRel,
    AggregateRel,
    Grouping,
    Measure,
    AggregateFunction,
    SortRel,
    SortField,
    JoinRel,
    ProjectRel,
    SetRel,
    CrossRel,
    MaskExpression,
    /// `MaskExpression.StructSelect`.
    StructSelect,
    StructItem,
    Expression,
    ScalarFunction,
    FunctionArgument,
    FunctionOption,
    FieldReference,
    ReferenceSegment,
    StructField,
    IfThen,
    IfClause,
    SwitchExpression,
    /// `SwitchExpression.IfValue`: a literal and an expression.
    IfValue,
    SingularOrList,
    Cast,
    Literal,
    DecimalLiteral,
    /// `Type`.
    DataType,
    /// A type of which only the nullability is read.
    PlainType,
    DecimalType,
    Subquery,
    ScalarSubquery,
    InPredicate,
    SetPredicate,
}

/// What the field of a message holds.
#[derive(Clone, Copy, Debug, PartialEq, Eq)]
pub enum Use {
    /// The field isn't named: its records are skipped.
    Unnamed,
    /// One number, enum or truth value.
    Number,
    /// Repeated numbers, packed or not.
    Numbers,
    /// Texts, each of which is UTF-8.
    Text,
    /// Bytes, which aren't looked into.
    Bytes,
    /// Messages of this shape.
    Message(Shape),
}
