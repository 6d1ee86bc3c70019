//! The numbers of the fields that are read, a module a message, under the names that they have in Substrait's plan.proto,
//! algebra.proto, type.proto and function.proto.

/// The field `common` of each relation.
pub const COMMON: u32 = 1;

/// `Plan`.
pub mod plan {
    pub const EXTENSION_URIS: u32 = 1;

    pub const EXTENSIONS: u32 = 2;

    pub const RELATIONS: u32 = 3;
}

/// `PlanRel`.
pub mod plan_rel {
    pub const REL: u32 = 1;

    pub const ROOT: u32 = 2;
}

/// `RelRoot`.
pub mod rel_root {
    pub const INPUT: u32 = 1;

    pub const NAMES: u32 = 2;
}

/// `SimpleExtensionURI`.
pub mod extension_uri {
    pub const EXTENSION_URI_ANCHOR: u32 = 1;

    pub const URI: u32 = 2;
}

/// `SimpleExtensionDeclaration`.
pub mod extension_declaration {
    pub const EXTENSION_FUNCTION: u32 = 3;
}

/// `ExtensionFunction`.
pub mod extension_function {
    pub const EXTENSION_URI_REFERENCE: u32 = 1;

    pub const FUNCTION_ANCHOR: u32 = 2;

    pub const NAME: u32 = 3;
}

/// `Rel`.
pub mod rel {
    pub const READ: u32 = 1;

    pub const FILTER: u32 = 2;

    pub const FETCH: u32 = 3;

    pub const AGGREGATE: u32 = 4;

    pub const SORT: u32 = 5;

    pub const JOIN: u32 = 6;

    pub const PROJECT: u32 = 7;

    pub const SET: u32 = 8;

    pub const CROSS: u32 = 12;
}

/// `RelCommon`.
pub mod rel_common {
    pub const DIRECT: u32 = 1;

    pub const EMIT: u32 = 2;
}

/// `RelCommon.Emit`.
pub mod emit {
    pub const OUTPUT_MAPPING: u32 = 1;
}

/// `ReadRel`.
pub mod read_rel {
    pub const BASE_SCHEMA: u32 = 2;

    pub const FILTER: u32 = 3;

    pub const PROJECTION: u32 = 4;

    pub const VIRTUAL_TABLE: u32 = 5;

    pub const LOCAL_FILES: u32 = 6;

    pub const NAMED_TABLE: u32 = 7;

    pub const BEST_EFFORT_FILTER: u32 = 11;
}

/// `NamedStruct`.
pub mod named_struct {
    pub const NAMES: u32 = 1;

    pub const STRUCT: u32 = 2;
}

/// `Type.Struct`.
pub mod struct_type {
    pub const TYPES: u32 = 1;
}

/// `NamedTable`.
pub mod named_table {
    pub const NAMES: u32 = 1;
}

/// `VirtualTable`.
pub mod virtual_table {
    pub const VALUES: u32 = 1;

    pub const EXPRESSIONS: u32 = 2;
}

/// `Expression.Literal.Struct`.
pub mod literal_row {
    pub const FIELDS: u32 = 1;
}

/// `Expression.Nested.Struct`.
pub mod expression_row {
    pub const FIELDS: u32 = 1;
}

/// `LocalFiles`.
pub mod local_files {
    pub const ITEMS: u32 = 1;
}

/// An item of `LocalFiles`.
pub mod file_item {
    pub const URI_PATH: u32 = 1;

    pub const URI_FILE: u32 = 3;

    pub const ARROW: u32 = 10;
}

/// `FilterRel`.
pub mod filter_rel {
    pub const INPUT: u32 = 2;

    pub const CONDITION: u32 = 3;
}

/// `FetchRel`.
pub mod fetch_rel {
    pub const INPUT: u32 = 2;

    pub const OFFSET: u32 = 3;

    pub const COUNT: u32 = 4;

    pub const OFFSET_EXPR: u32 = 5;

    pub const COUNT_EXPR: u32 = 6;
}

/// `AggregateRel`.
pub mod aggregate_rel {
    pub const INPUT: u32 = 2;

    pub const GROUPINGS: u32 = 3;

    pub const MEASURES: u32 = 4;

    pub const GROUPING_EXPRESSIONS: u32 = 5;
}

/// `Grouping`.
pub mod grouping {
    pub const GROUPING_EXPRESSIONS: u32 = 1;

    pub const EXPRESSION_REFERENCES: u32 = 2;
}

/// `Measure`.
pub mod measure {
    pub const MEASURE: u32 = 1;

    pub const FILTER: u32 = 2;
}

/// `AggregateFunction`.
pub mod aggregate_function {
    pub const FUNCTION_REFERENCE: u32 = 1;

    pub const SORTS: u32 = 3;

    pub const PHASE: u32 = 4;

    pub const OUTPUT_TYPE: u32 = 5;

    pub const INVOCATION: u32 = 6;

    pub const ARGUMENTS: u32 = 7;

    pub const OPTIONS: u32 = 8;
}

/// `SortRel`.
pub mod sort_rel {
    pub const INPUT: u32 = 2;

    pub const SORTS: u32 = 3;
}

/// `SortField`.
pub mod sort_field {
    pub const EXPR: u32 = 1;

    pub const DIRECTION: u32 = 2;
}

/// `JoinRel`.
pub mod join_rel {
    pub const LEFT: u32 = 2;

    pub const RIGHT: u32 = 3;

    pub const EXPRESSION: u32 = 4;

    pub const POST_JOIN_FILTER: u32 = 5;

    pub const TYPE: u32 = 6;
}

/// `ProjectRel`.
pub mod project_rel {
    pub const INPUT: u32 = 2;

    pub const EXPRESSIONS: u32 = 3;
}

/// `SetRel`.
pub mod set_rel {
    pub const INPUTS: u32 = 2;

    pub const OP: u32 = 3;
}

/// `CrossRel`.
pub mod cross_rel {
    pub const LEFT: u32 = 2;

    pub const RIGHT: u32 = 3;
}

/// `MaskExpression`.
pub mod mask_expression {
    pub const SELECT: u32 = 1;
}

/// `StructSelect`.
pub mod struct_select {
    pub const STRUCT_ITEMS: u32 = 1;
}

/// `StructItem`.
pub mod struct_item {
    pub const FIELD: u32 = 1;

    pub const CHILD: u32 = 2;
}

/// `Expression`.
pub mod expression {
    pub const LITERAL: u32 = 1;

    pub const SELECTION: u32 = 2;

    pub const SCALAR_FUNCTION: u32 = 3;

    pub const IF_THEN: u32 = 6;

    pub const SWITCH_EXPRESSION: u32 = 7;

    pub const SINGULAR_OR_LIST: u32 = 8;

    pub const CAST: u32 = 11;

    pub const SUBQUERY: u32 = 12;
}

/// `ScalarFunction`.
pub mod scalar_function {
    pub const FUNCTION_REFERENCE: u32 = 1;

    pub const OUTPUT_TYPE: u32 = 3;

    pub const ARGUMENTS: u32 = 4;

    pub const OPTIONS: u32 = 5;
}

/// `FunctionArgument`.
pub mod function_argument {
    pub const ENUM: u32 = 1;

    pub const TYPE: u32 = 2;

    pub const VALUE: u32 = 3;
}

/// `FunctionOption`.
pub mod function_option {
    pub const NAME: u32 = 1;

    pub const PREFERENCE: u32 = 2;
}

/// `FieldReference`.
pub mod field_reference {
    pub const DIRECT_REFERENCE: u32 = 1;

    pub const MASKED_REFERENCE: u32 = 2;

    pub const EXPRESSION: u32 = 3;

    pub const ROOT_REFERENCE: u32 = 4;

    pub const OUTER_REFERENCE: u32 = 5;
}

/// `ReferenceSegment`.
pub mod reference_segment {
    pub const STRUCT_FIELD: u32 = 2;
}

/// `StructField`.
pub mod struct_field {
    pub const FIELD: u32 = 1;

    pub const CHILD: u32 = 2;
}

/// `IfThen`.
pub mod if_then {
    pub const IFS: u32 = 1;

    pub const ELSE: u32 = 2;
}

/// `IfClause`.
pub mod if_clause {
    pub const IF: u32 = 1;

    pub const THEN: u32 = 2;
}

/// `SwitchExpression`.
pub mod switch_expression {
    pub const IFS: u32 = 1;

    pub const ELSE: u32 = 2;

    pub const MATCH: u32 = 3;
}

/// `IfValue`.
pub mod if_value {
    pub const IF: u32 = 1;

    pub const THEN: u32 = 2;
}

/// `SingularOrList`.
pub mod singular_or_list {
    pub const VALUE: u32 = 1;

    pub const OPTIONS: u32 = 2;
}

/// `Cast`.
pub mod cast {
    pub const TYPE: u32 = 1;

    pub const INPUT: u32 = 2;

    pub const FAILURE_BEHAVIOR: u32 = 3;
}

/// `Literal`.
pub mod literal {
    pub const BOOLEAN: u32 = 1;

    pub const I8: u32 = 2;

    pub const I16: u32 = 3;

    pub const I32: u32 = 5;

    pub const I64: u32 = 7;

    pub const STRING: u32 = 12;

    pub const BINARY: u32 = 13;

    pub const TIMESTAMP: u32 = 14;

    pub const DATE: u32 = 16;

    pub const DECIMAL: u32 = 24;

    pub const NULL: u32 = 29;

    pub const NULLABLE: u32 = 50;

    pub const TYPE_VARIATION_REFERENCE: u32 = 51;
}

/// `DecimalLiteral`.
pub mod decimal_literal {
    pub const VALUE: u32 = 1;

    pub const PRECISION: u32 = 2;

    pub const SCALE: u32 = 3;
}

/// `Type`.
pub mod data_type {
    pub const BOOL: u32 = 1;

    pub const I8: u32 = 2;

    pub const I16: u32 = 3;

    pub const I32: u32 = 5;

    pub const I64: u32 = 7;

    pub const STRING: u32 = 12;

    pub const BINARY: u32 = 13;

    pub const TIMESTAMP: u32 = 14;

    pub const DATE: u32 = 16;

    pub const DECIMAL: u32 = 24;

    pub const STRUCT: u32 = 25;
}

/// A type of which only the nullability is read.
pub mod plain_type {
    pub const NULLABILITY: u32 = 2;
}

/// `DecimalType`.
pub mod decimal_type {
    pub const SCALE: u32 = 1;

    pub const PRECISION: u32 = 2;

    pub const NULLABILITY: u32 = 4;
}

/// `Subquery`.
pub mod subquery {
    pub const SCALAR: u32 = 1;

    pub const IN_PREDICATE: u32 = 2;

    pub const SET_PREDICATE: u32 = 3;

    pub const SET_COMPARISON: u32 = 4;
}

/// `ScalarSubquery`.
pub mod scalar_subquery {
    pub const INPUT: u32 = 1;
}

/// `InPredicate`.
pub mod in_predicate {
    pub const NEEDLES: u32 = 1;

    pub const HAYSTACK: u32 = 2;
}

/// `SetPredicate`.
pub mod set_predicate {
    pub const PREDICATE_OP: u32 = 1;

    pub const TUPLES: u32 = 2;
}
