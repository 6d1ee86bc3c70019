// What a message without relations and expressions holds, field by field, as it stands in a plan's tree.
ghost use Rattle.std.specs.Prelude.{◌≡◌, length};
ghost use Rattle.spell_leaves.specs.Seen.{messages_seen};

use plan_leaves::{
    FileItem, FunDecl, FunctionOption, LiteralRow, LocalFiles, MaskExpression, MaskItem,
    MaskStruct, NamedStruct, NamedTable, RawLiteral, RawType, ReferenceSegment, RelCommon,
    StructField, StructType, UriDecl,
};
use sub_types::ByteList;

/// The messages of a field, by what they are written from. A slice has one where the field is singular and there.
#[derive(Clone, Copy)]
pub enum MessagesRef<'a> {
    ExtensionUri(&'a [UriDecl]),
    ExtensionDeclaration(&'a [FunDecl]),
    ExtensionFunction(&'a FunDecl),
    RelCommon(&'a [RelCommon]),
    Emit(&'a [i32]),
    NamedStruct(&'a [NamedStruct]),
    StructType(&'a [StructType]),
    /// A `Type.Struct` where it is a type.
    TypeStruct(&'a [RawType]),
    NamedTable(&'a [NamedTable]),
    LiteralRow(&'a [LiteralRow]),
    LocalFiles(&'a [LocalFiles]),
    FileItem(&'a [FileItem]),
    MaskExpression(&'a [MaskExpression]),
    StructSelect(&'a [MaskStruct]),
    StructItem(&'a [MaskItem]),
    FunctionOption(&'a [FunctionOption]),
    ReferenceSegment(&'a [ReferenceSegment]),
    StructField(&'a [StructField]),
    Literal(&'a [RawLiteral]),
    DecimalLiteral(&'a RawLiteral),
    DataType(&'a [RawType]),
    PlainType(u32),
    DecimalType(&'a RawType),
}

impl<'a> MessagesRef<'a> {
    /// How many messages there are.
    pub(crate) fn len(&self) -> usize
        ensures { result ≡ length (messages_seen self.now).nodes }
    {
        match *self {
            MessagesRef::ExtensionUri(uris) => uris.len(),
            MessagesRef::ExtensionDeclaration(functions) => functions.len(),
            MessagesRef::RelCommon(commons) => commons.len(),
            MessagesRef::NamedStruct(schemas) => schemas.len(),
            MessagesRef::StructType(structs) => structs.len(),
            MessagesRef::NamedTable(tables) => tables.len(),
            MessagesRef::LiteralRow(rows) => rows.len(),
            MessagesRef::LocalFiles(files) => files.len(),
            MessagesRef::FileItem(items) => items.len(),
            MessagesRef::MaskExpression(masks) => masks.len(),
            MessagesRef::StructSelect(selects) => selects.len(),
            MessagesRef::StructItem(items) => items.len(),
            MessagesRef::FunctionOption(options) => options.len(),
            MessagesRef::ReferenceSegment(segments) => segments.len(),
            MessagesRef::StructField(fields) => fields.len(),
            MessagesRef::Literal(literals) => literals.len(),
            MessagesRef::DataType(types) => types.len(),
            MessagesRef::ExtensionFunction(_) => 1,
            MessagesRef::Emit(_) => 1,
            MessagesRef::TypeStruct(_) => 1,
            MessagesRef::DecimalLiteral(_) => 1,
            MessagesRef::PlainType(_) => 1,
            MessagesRef::DecimalType(_) => 1,
        }
    }
}

/// What a field holds. Numbers, truth values and bytes that aren't members of a oneof aren't written where they are 0, false
/// and empty.
#[derive(Clone, Copy)]
pub enum HeldRef<'a> {
    Uint32(u32),
    Int32(&'a i32),
    Truth(bool),
    Block(&'a [u8]),
    Int32Member(&'a i32),
    Int64Member(Option<i64>),
    TruthMember(bool),
    BlockMember(&'a [u8]),
    /// An empty block that is there or isn't.
    EmptyBlock(bool),
    PackedUint32s(&'a [u32]),
    PackedInt32s(&'a [i32]),
    Blocks(&'a [ByteList]),
    /// A message of which only the presence is read.
    Presence(bool),
    Messages(MessagesRef<'a>),
}

/// A field's number and what it holds.
#[derive(Clone, Copy)]
pub struct PartRef<'a> {
    pub number: u32,
    pub held: HeldRef<'a>,
}
