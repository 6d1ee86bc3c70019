// The oneofs of a plan's messages.
ghost use Rattle.std.specs.Prelude.{◌≡◌};
ghost use Rattle.pb_wire.specs.Seen.{content_of, field_seen};
ghost use Rattle.plan_scan.specs.Member as member;
ghost use Rattle.plan_scan.specs.Member.{owner, has_number, has_wire_type, is_member};

use crate::field;
use crate::shape::{Shape, Use};
use crate::table::use_of_field;
use pb_wire::{Payload, Record};

/// A oneof, by its name in the message that has it.
#[derive(Clone, Copy, Debug, PartialEq, Eq)]
pub enum OneOf {
    /// `rel_type` of `PlanRel`.
    PlanRelType,
    /// `emit_kind` of `RelCommon`.
    EmitKind,
    /// `read_type` of `ReadRel`.
    ReadType,
    /// `path_type` of a file item.
    PathType,
    /// `offset_mode` of `FetchRel`.
    OffsetMode,
    /// `count_mode` of `FetchRel`.
    CountMode,
    /// `rel_type` of `Rel`.
    RelType,
    /// `arg_type` of `FunctionArgument`.
    ArgumentType,
    /// `rex_type` of `Expression`.
    RexType,
    /// `literal_type` of `Literal`.
    LiteralType,
    /// `kind` of `Type`.
    TypeKind,
    /// `subquery_type` of `Subquery`.
    SubqueryType,
}

impl OneOf {
    /// Whether the record is of a member. One of a named field with another wire type than its own isn't.
    pub(crate) fn has_member(self, found: &Record<'_>) -> bool
        ensures { result ≡ is_member self (field_seen found.now) }
    {
        self.has_field(found.number)
            && is_of_type(use_of_field(self.owner(), found.number), &found.payload)
    }

    /// The message that has the oneof.
    pub(crate) fn owner(self) -> Shape
        ensures { result ≡ owner self }
    {
        match self {
            OneOf::PlanRelType => Shape::PlanRel,
            OneOf::EmitKind => Shape::RelCommon,
            OneOf::ReadType => Shape::ReadRel,
            OneOf::PathType => Shape::FileItem,
            OneOf::OffsetMode | OneOf::CountMode => Shape::FetchRel,
            OneOf::RelType => Shape::Rel,
            OneOf::ArgumentType => Shape::FunctionArgument,
            OneOf::RexType => Shape::Expression,
            OneOf::LiteralType => Shape::Literal,
            OneOf::TypeKind => Shape::DataType,
            OneOf::SubqueryType => Shape::Subquery,
        }
    }

    // Whether the number is one of a member.
    fn has_field(self, number: u32) -> bool
        ensures { result ≡ has_number self number }
    {
        match self {
            OneOf::PlanRelType => number == field::plan_rel::REL || number == field::plan_rel::ROOT,
            OneOf::EmitKind => number == field::rel_common::DIRECT
                || number == field::rel_common::EMIT,
            OneOf::ReadType => number == field::read_rel::VIRTUAL_TABLE
                || number == field::read_rel::LOCAL_FILES
                || number == field::read_rel::NAMED_TABLE,
            OneOf::PathType => number == field::file_item::URI_PATH
                || number == field::file_item::URI_FILE,
            OneOf::OffsetMode => number == field::fetch_rel::OFFSET
                || number == field::fetch_rel::OFFSET_EXPR,
            OneOf::CountMode => number == field::fetch_rel::COUNT
                || number == field::fetch_rel::COUNT_EXPR,
            OneOf::ArgumentType => number == field::function_argument::ENUM
                || number == field::function_argument::TYPE
                || number == field::function_argument::VALUE,
            OneOf::LiteralType => !(number == field::literal::NULLABLE
                || number == field::literal::TYPE_VARIATION_REFERENCE),
            OneOf::RelType | OneOf::RexType | OneOf::TypeKind | OneOf::SubqueryType => true,
        }
    }
}

/// Whether the last member so far has this number.
pub(crate) fn is_last(last: Option<u32>, number: u32) -> bool
    ensures { result ≡ member.is_last last number }
{
    match last {
        Some(found) => found == number,
        None => false,
    }
}

// Whether a payload has the wire type of its field.
fn is_of_type(holds: Use, payload: &Payload<'_>) -> bool
    ensures { result ≡ has_wire_type holds (content_of payload.now) }
{
    match holds {
        Use::Unnamed => true,
        Use::Number => matches!(payload, Payload::Varint(_)),
        Use::Numbers => matches!(payload, Payload::Varint(_) | Payload::Bytes(_)),
        Use::Text | Use::Bytes | Use::Message(_) => matches!(payload, Payload::Bytes(_)),
    }
}
