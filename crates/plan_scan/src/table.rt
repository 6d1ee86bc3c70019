// Which fields of which message are read (Substrait's plan.proto, algebra.proto, type.proto and function.proto).
ghost use Rattle.std.specs.Prelude.{◌≡◌};
ghost use Rattle.plan_scan.specs.Table.{use_of};

use crate::field;
use crate::shape::{Shape, Use};

/// What the field of this number holds in a message of this shape: a row a message, as `named` in `specs/Table.antt`.
pub fn use_of_field(shape: Shape, number: u32) -> Use
    ensures { result ≡ use_of shape number }
{
    match shape {
        Shape::Empty => Use::Unnamed,
        Shape::Plan => match number {
            field::plan::EXTENSION_URIS => Use::Message(Shape::ExtensionUri),
            field::plan::EXTENSIONS => Use::Message(Shape::ExtensionDeclaration),
            field::plan::RELATIONS => Use::Message(Shape::PlanRel),
            _ => Use::Unnamed,
        },
        Shape::PlanRel => match number {
            field::plan_rel::REL => Use::Message(Shape::Rel),
            field::plan_rel::ROOT => Use::Message(Shape::RelRoot),
            _ => Use::Unnamed,
        },
        Shape::RelRoot => match number {
            field::rel_root::INPUT => Use::Message(Shape::Rel),
            field::rel_root::NAMES => Use::Text,
            _ => Use::Unnamed,
        },
        Shape::ExtensionUri => match number {
            field::extension_uri::EXTENSION_URI_ANCHOR => Use::Number,
            field::extension_uri::URI => Use::Text,
            _ => Use::Unnamed,
        },
        Shape::ExtensionDeclaration => match number {
            field::extension_declaration::EXTENSION_FUNCTION => Use::Message(
                Shape::ExtensionFunction,
            ),
            _ => Use::Unnamed,
        },
        Shape::ExtensionFunction => match number {
            field::extension_function::EXTENSION_URI_REFERENCE => Use::Number,
            field::extension_function::FUNCTION_ANCHOR => Use::Number,
            field::extension_function::NAME => Use::Text,
            _ => Use::Unnamed,
        },
        Shape::Rel => match number {
            field::rel::READ => Use::Message(Shape::ReadRel),
            field::rel::FILTER => Use::Message(Shape::FilterRel),
            field::rel::FETCH => Use::Message(Shape::FetchRel),
            field::rel::AGGREGATE => Use::Message(Shape::AggregateRel),
            field::rel::SORT => Use::Message(Shape::SortRel),
            field::rel::JOIN => Use::Message(Shape::JoinRel),
            field::rel::PROJECT => Use::Message(Shape::ProjectRel),
            field::rel::SET => Use::Message(Shape::SetRel),
            field::rel::CROSS => Use::Message(Shape::CrossRel),
            _ => Use::Unnamed,
        },
        Shape::RelCommon => match number {
            field::rel_common::DIRECT => Use::Message(Shape::Empty),
            field::rel_common::EMIT => Use::Message(Shape::Emit),
            _ => Use::Unnamed,
        },
        Shape::Emit => match number {
            field::emit::OUTPUT_MAPPING => Use::Numbers,
            _ => Use::Unnamed,
        },
        Shape::ReadRel => match number {
            field::COMMON => Use::Message(Shape::RelCommon),
            field::read_rel::BASE_SCHEMA => Use::Message(Shape::NamedStruct),
            field::read_rel::FILTER => Use::Message(Shape::Expression),
            field::read_rel::PROJECTION => Use::Message(Shape::MaskExpression),
            field::read_rel::VIRTUAL_TABLE => Use::Message(Shape::VirtualTable),
            field::read_rel::LOCAL_FILES => Use::Message(Shape::LocalFiles),
            field::read_rel::NAMED_TABLE => Use::Message(Shape::NamedTable),
            field::read_rel::BEST_EFFORT_FILTER => Use::Message(Shape::Expression),
            _ => Use::Unnamed,
        },
        Shape::NamedStruct => match number {
            field::named_struct::NAMES => Use::Text,
            field::named_struct::STRUCT => Use::Message(Shape::StructType),
            _ => Use::Unnamed,
        },
        Shape::StructType => match number {
            field::struct_type::TYPES => Use::Message(Shape::DataType),
            _ => Use::Unnamed,
        },
        Shape::NamedTable => match number {
            field::named_table::NAMES => Use::Text,
            _ => Use::Unnamed,
        },
        Shape::VirtualTable => match number {
            field::virtual_table::VALUES => Use::Message(Shape::LiteralRow),
            field::virtual_table::EXPRESSIONS => Use::Message(Shape::ExpressionRow),
            _ => Use::Unnamed,
        },
        Shape::LiteralRow => match number {
            field::literal_row::FIELDS => Use::Message(Shape::Literal),
            _ => Use::Unnamed,
        },
        Shape::ExpressionRow => match number {
            field::expression_row::FIELDS => Use::Message(Shape::Expression),
            _ => Use::Unnamed,
        },
        Shape::LocalFiles => match number {
            field::local_files::ITEMS => Use::Message(Shape::FileItem),
            _ => Use::Unnamed,
        },
        Shape::FileItem => match number {
            field::file_item::URI_PATH => Use::Text,
            field::file_item::URI_FILE => Use::Text,
            field::file_item::ARROW => Use::Message(Shape::Empty),
            _ => Use::Unnamed,
        },
        Shape::FilterRel => match number {
            field::COMMON => Use::Message(Shape::RelCommon),
            field::filter_rel::INPUT => Use::Message(Shape::Rel),
            field::filter_rel::CONDITION => Use::Message(Shape::Expression),
            _ => Use::Unnamed,
        },
        Shape::FetchRel => match number {
            field::COMMON => Use::Message(Shape::RelCommon),
            field::fetch_rel::INPUT => Use::Message(Shape::Rel),
            field::fetch_rel::OFFSET => Use::Number,
            field::fetch_rel::COUNT => Use::Number,
            field::fetch_rel::OFFSET_EXPR => Use::Message(Shape::Expression),
            field::fetch_rel::COUNT_EXPR => Use::Message(Shape::Expression),
            _ => Use::Unnamed,
        },
        Shape::AggregateRel => match number {
            field::COMMON => Use::Message(Shape::RelCommon),
            field::aggregate_rel::INPUT => Use::Message(Shape::Rel),
            field::aggregate_rel::GROUPINGS => Use::Message(Shape::Grouping),
            field::aggregate_rel::MEASURES => Use::Message(Shape::Measure),
            field::aggregate_rel::GROUPING_EXPRESSIONS => Use::Message(Shape::Expression),
            _ => Use::Unnamed,
        },
        Shape::Grouping => match number {
            field::grouping::GROUPING_EXPRESSIONS => Use::Message(Shape::Expression),
            field::grouping::EXPRESSION_REFERENCES => Use::Numbers,
            _ => Use::Unnamed,
        },
        Shape::Measure => match number {
            field::measure::MEASURE => Use::Message(Shape::AggregateFunction),
            field::measure::FILTER => Use::Message(Shape::Expression),
            _ => Use::Unnamed,
        },
        Shape::AggregateFunction => match number {
            field::aggregate_function::FUNCTION_REFERENCE => Use::Number,
            field::aggregate_function::SORTS => Use::Message(Shape::SortField),
            field::aggregate_function::PHASE => Use::Number,
            field::aggregate_function::OUTPUT_TYPE => Use::Message(Shape::DataType),
            field::aggregate_function::INVOCATION => Use::Number,
            field::aggregate_function::ARGUMENTS => Use::Message(Shape::FunctionArgument),
            field::aggregate_function::OPTIONS => Use::Message(Shape::FunctionOption),
            _ => Use::Unnamed,
        },
        Shape::SortRel => match number {
            field::COMMON => Use::Message(Shape::RelCommon),
            field::sort_rel::INPUT => Use::Message(Shape::Rel),
            field::sort_rel::SORTS => Use::Message(Shape::SortField),
            _ => Use::Unnamed,
        },
        Shape::SortField => match number {
            field::sort_field::EXPR => Use::Message(Shape::Expression),
            field::sort_field::DIRECTION => Use::Number,
            _ => Use::Unnamed,
        },
        Shape::JoinRel => match number {
            field::COMMON => Use::Message(Shape::RelCommon),
            field::join_rel::LEFT => Use::Message(Shape::Rel),
            field::join_rel::RIGHT => Use::Message(Shape::Rel),
            field::join_rel::EXPRESSION => Use::Message(Shape::Expression),
            field::join_rel::POST_JOIN_FILTER => Use::Message(Shape::Expression),
            field::join_rel::TYPE => Use::Number,
            _ => Use::Unnamed,
        },
        Shape::ProjectRel => match number {
            field::COMMON => Use::Message(Shape::RelCommon),
            field::project_rel::INPUT => Use::Message(Shape::Rel),
            field::project_rel::EXPRESSIONS => Use::Message(Shape::Expression),
            _ => Use::Unnamed,
        },
        Shape::SetRel => match number {
            field::COMMON => Use::Message(Shape::RelCommon),
            field::set_rel::INPUTS => Use::Message(Shape::Rel),
            field::set_rel::OP => Use::Number,
            _ => Use::Unnamed,
        },
        Shape::CrossRel => match number {
            field::COMMON => Use::Message(Shape::RelCommon),
            field::cross_rel::LEFT => Use::Message(Shape::Rel),
            field::cross_rel::RIGHT => Use::Message(Shape::Rel),
            _ => Use::Unnamed,
        },
        Shape::MaskExpression => match number {
            field::mask_expression::SELECT => Use::Message(Shape::StructSelect),
            _ => Use::Unnamed,
        },
        Shape::StructSelect => match number {
            field::struct_select::STRUCT_ITEMS => Use::Message(Shape::StructItem),
            _ => Use::Unnamed,
        },
        Shape::StructItem => match number {
            field::struct_item::FIELD => Use::Number,
            field::struct_item::CHILD => Use::Message(Shape::Empty),
            _ => Use::Unnamed,
        },
        Shape::Expression => match number {
            field::expression::LITERAL => Use::Message(Shape::Literal),
            field::expression::SELECTION => Use::Message(Shape::FieldReference),
            field::expression::SCALAR_FUNCTION => Use::Message(Shape::ScalarFunction),
            field::expression::IF_THEN => Use::Message(Shape::IfThen),
            field::expression::SWITCH_EXPRESSION => Use::Message(Shape::SwitchExpression),
            field::expression::SINGULAR_OR_LIST => Use::Message(Shape::SingularOrList),
            field::expression::CAST => Use::Message(Shape::Cast),
            field::expression::SUBQUERY => Use::Message(Shape::Subquery),
            _ => Use::Unnamed,
        },
        Shape::ScalarFunction => match number {
            field::scalar_function::FUNCTION_REFERENCE => Use::Number,
            field::scalar_function::OUTPUT_TYPE => Use::Message(Shape::DataType),
            field::scalar_function::ARGUMENTS => Use::Message(Shape::FunctionArgument),
            field::scalar_function::OPTIONS => Use::Message(Shape::FunctionOption),
            _ => Use::Unnamed,
        },
        Shape::FunctionArgument => match number {
            field::function_argument::ENUM => Use::Text,
            field::function_argument::TYPE => Use::Message(Shape::DataType),
            field::function_argument::VALUE => Use::Message(Shape::Expression),
            _ => Use::Unnamed,
        },
        Shape::FunctionOption => match number {
            field::function_option::NAME => Use::Text,
            field::function_option::PREFERENCE => Use::Text,
            _ => Use::Unnamed,
        },
        Shape::FieldReference => match number {
            field::field_reference::DIRECT_REFERENCE => Use::Message(Shape::ReferenceSegment),
            field::field_reference::MASKED_REFERENCE => Use::Bytes,
            field::field_reference::EXPRESSION => Use::Bytes,
            field::field_reference::ROOT_REFERENCE => Use::Message(Shape::Empty),
            field::field_reference::OUTER_REFERENCE => Use::Bytes,
            _ => Use::Unnamed,
        },
        Shape::ReferenceSegment => match number {
            field::reference_segment::STRUCT_FIELD => Use::Message(Shape::StructField),
            _ => Use::Unnamed,
        },
        Shape::StructField => match number {
            field::struct_field::FIELD => Use::Number,
            field::struct_field::CHILD => Use::Message(Shape::Empty),
            _ => Use::Unnamed,
        },
        Shape::IfThen => match number {
            field::if_then::IFS => Use::Message(Shape::IfClause),
            field::if_then::ELSE => Use::Message(Shape::Expression),
            _ => Use::Unnamed,
        },
        Shape::IfClause => match number {
            field::if_clause::IF => Use::Message(Shape::Expression),
            field::if_clause::THEN => Use::Message(Shape::Expression),
            _ => Use::Unnamed,
        },
        Shape::SwitchExpression => match number {
            field::switch_expression::IFS => Use::Message(Shape::IfValue),
            field::switch_expression::ELSE => Use::Message(Shape::Expression),
            field::switch_expression::MATCH => Use::Message(Shape::Expression),
            _ => Use::Unnamed,
        },
        Shape::IfValue => match number {
            field::if_value::IF => Use::Message(Shape::Literal),
            field::if_value::THEN => Use::Message(Shape::Expression),
            _ => Use::Unnamed,
        },
        Shape::SingularOrList => match number {
            field::singular_or_list::VALUE => Use::Message(Shape::Expression),
            field::singular_or_list::OPTIONS => Use::Message(Shape::Expression),
            _ => Use::Unnamed,
        },
        Shape::Cast => match number {
            field::cast::TYPE => Use::Message(Shape::DataType),
            field::cast::INPUT => Use::Message(Shape::Expression),
            field::cast::FAILURE_BEHAVIOR => Use::Number,
            _ => Use::Unnamed,
        },
        Shape::Literal => match number {
            field::literal::BOOLEAN => Use::Number,
            field::literal::I8 => Use::Number,
            field::literal::I16 => Use::Number,
            field::literal::I32 => Use::Number,
            field::literal::I64 => Use::Number,
            field::literal::STRING => Use::Text,
            field::literal::BINARY => Use::Bytes,
            field::literal::TIMESTAMP => Use::Number,
            field::literal::DATE => Use::Number,
            field::literal::DECIMAL => Use::Message(Shape::DecimalLiteral),
            field::literal::NULL => Use::Message(Shape::DataType),
            field::literal::NULLABLE => Use::Number,
            _ => Use::Unnamed,
        },
        Shape::DecimalLiteral => match number {
            field::decimal_literal::VALUE => Use::Bytes,
            field::decimal_literal::PRECISION => Use::Number,
            field::decimal_literal::SCALE => Use::Number,
            _ => Use::Unnamed,
        },
        Shape::DataType => match number {
            field::data_type::BOOL => Use::Message(Shape::PlainType),
            field::data_type::I8 => Use::Message(Shape::PlainType),
            field::data_type::I16 => Use::Message(Shape::PlainType),
            field::data_type::I32 => Use::Message(Shape::PlainType),
            field::data_type::I64 => Use::Message(Shape::PlainType),
            field::data_type::STRING => Use::Message(Shape::PlainType),
            field::data_type::BINARY => Use::Message(Shape::PlainType),
            field::data_type::TIMESTAMP => Use::Message(Shape::PlainType),
            field::data_type::DATE => Use::Message(Shape::PlainType),
            field::data_type::DECIMAL => Use::Message(Shape::DecimalType),
            field::data_type::STRUCT => Use::Message(Shape::StructType),
            _ => Use::Unnamed,
        },
        Shape::PlainType => match number {
            field::plain_type::NULLABILITY => Use::Number,
            _ => Use::Unnamed,
        },
        Shape::DecimalType => match number {
            field::decimal_type::SCALE => Use::Number,
            field::decimal_type::PRECISION => Use::Number,
            field::decimal_type::NULLABILITY => Use::Number,
            _ => Use::Unnamed,
        },
        Shape::Subquery => match number {
            field::subquery::SCALAR => Use::Message(Shape::ScalarSubquery),
            field::subquery::IN_PREDICATE => Use::Message(Shape::InPredicate),
            field::subquery::SET_PREDICATE => Use::Message(Shape::SetPredicate),
            field::subquery::SET_COMPARISON => Use::Bytes,
            _ => Use::Unnamed,
        },
        Shape::ScalarSubquery => match number {
            field::scalar_subquery::INPUT => Use::Message(Shape::Rel),
            _ => Use::Unnamed,
        },
        Shape::InPredicate => match number {
            field::in_predicate::NEEDLES => Use::Message(Shape::Expression),
            field::in_predicate::HAYSTACK => Use::Message(Shape::Rel),
            _ => Use::Unnamed,
        },
        Shape::SetPredicate => match number {
            field::set_predicate::PREDICATE_OP => Use::Number,
            field::set_predicate::TUPLES => Use::Message(Shape::Rel),
            _ => Use::Unnamed,
        },
    }
}
