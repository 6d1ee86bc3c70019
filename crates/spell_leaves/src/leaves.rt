// The fields of the messages that hold no relation and no expression, each in the order in which they are written.
ghost use Rattle.std.specs.Prelude.{◌≡◌, [], ◌∷◌, IfOk};
ghost use Rattle.plan_scan.specs.declared.shape.Shape.TheVariants as shapes;
ghost use Rattle.plan_spell.specs.Held.{member};
ghost use Rattle.plan_spell.specs.Leaves as tables;
ghost use Rattle.plan_leaves.specs.declared.types.RawType.{out-RawType};
ghost use Rattle.spell_leaves.specs.Seen.{held_seen, parts_seen};

use crate::fields::{
    block, block_member, blocks, int32, listed, messages, optional, presence, truth, uint32,
};
use crate::part::{HeldRef, MessagesRef, PartRef};
use plan_leaves::{
    FileItem, FunDecl, FunctionOption, ItemPath, LiteralRow, LocalFiles, MaskExpression, MaskItem,
    MaskStruct, NamedStruct, NamedTable, RawLiteral, RawType, ReferenceSegment, RelCommon,
    StructField, StructType, UriDecl,
};
use std::alloc::Global;
use std::slice;
use sub_types::NoMemory;

// SimpleExtensionURI
pub(crate) fn uri_parts<'a>(alloc: Global, uri: &'a UriDecl) -> Result<Vec<PartRef<'a>>, NoMemory>
    ensures { IfOk result (λ parts. parts_seen parts.items ≡ tables.uri_parts uri.now) }
{
    listed(alloc, [uint32(1, uri.anchor), block(2, uri.uri.bytes())])
}

// SimpleExtensionDeclaration
pub(crate) fn declaration_parts<'a>(
    alloc: Global,
    function: &'a FunDecl,
) -> Result<Vec<PartRef<'a>>, NoMemory>
    ensures { IfOk result (λ parts. parts_seen parts.items ≡ tables.declaration_parts function.now) }
{
    listed(
        alloc,
        [messages(3, MessagesRef::ExtensionFunction(function))],
    )
}

// its extension_function
pub(crate) fn function_parts<'a>(
    alloc: Global,
    function: &'a FunDecl,
) -> Result<Vec<PartRef<'a>>, NoMemory>
    ensures { IfOk result (λ parts. parts_seen parts.items ≡ tables.function_parts function.now) }
{
    listed(
        alloc,
        [
            uint32(1, function.uri),
            uint32(2, function.anchor),
            block(3, function.name.bytes()),
        ],
    )
}

// RelCommon
pub(crate) fn common_parts<'a>(
    alloc: Global,
    common: &'a RelCommon,
) -> Result<Vec<PartRef<'a>>, NoMemory>
    ensures { IfOk result (λ parts. parts_seen parts.items ≡ tables.common_parts common.now) }
{
    match common {
        RelCommon::Missing => Ok(Vec::new(alloc)),
        RelCommon::Direct => listed(alloc, [presence(1, true)]),
        RelCommon::Emit { output_mapping } => {
            listed(
                alloc,
                [messages(2, MessagesRef::Emit(output_mapping.as_slice()))],
            )
        }
    }
}

// RelCommon.Emit
pub(crate) fn emit_parts<'a>(
    alloc: Global,
    mapping: &'a [i32],
) -> Result<Vec<PartRef<'a>>, NoMemory>
    ensures { IfOk result (λ parts. parts_seen parts.items ≡ tables.emit_parts mapping.now) }
{
    listed(
        alloc,
        [PartRef {
            number: 1,
            held: HeldRef::PackedInt32s(mapping),
        }],
    )
}

// NamedStruct
pub(crate) fn named_struct_parts<'a>(
    alloc: Global,
    schema: &'a NamedStruct,
) -> Result<Vec<PartRef<'a>>, NoMemory>
    ensures { IfOk result (λ parts. parts_seen parts.items ≡ tables.named_struct_parts schema.now) }
{
    listed(
        alloc,
        [
            blocks(1, schema.names.as_slice()),
            messages(2, MessagesRef::StructType(optional(&schema.struct_))),
        ],
    )
}

// ReadRel.NamedTable
pub(crate) fn named_table_parts<'a>(
    alloc: Global,
    table: &'a NamedTable,
) -> Result<Vec<PartRef<'a>>, NoMemory>
    ensures { IfOk result (λ parts. parts_seen parts.items ≡ tables.named_table_parts table.now) }
{
    listed(alloc, [blocks(1, table.names.as_slice())])
}

// ReadRel.LocalFiles
pub(crate) fn local_files_parts<'a>(
    alloc: Global,
    files: &'a LocalFiles,
) -> Result<Vec<PartRef<'a>>, NoMemory>
    ensures { IfOk result (λ parts. parts_seen parts.items ≡ tables.local_files_parts files.now) }
{
    listed(
        alloc,
        [messages(1, MessagesRef::FileItem(files.items.as_slice()))],
    )
}

// its items
pub(crate) fn file_item_parts<'a>(
    alloc: Global,
    item: &'a FileItem,
) -> Result<Vec<PartRef<'a>>, NoMemory>
    ensures { IfOk result (λ parts. parts_seen parts.items ≡ tables.file_item_parts item.now) }
{
    match &item.path {
        ItemPath::Missing => listed(alloc, [presence(10, item.arrow)]),
        ItemPath::UriPath(uri) => listed(
            alloc,
            [block_member(1, uri.bytes()), presence(10, item.arrow)],
        ),
        ItemPath::UriFile(uri) => listed(
            alloc,
            [block_member(3, uri.bytes()), presence(10, item.arrow)],
        ),
    }
}

// Expression.MaskExpression
pub(crate) fn mask_parts<'a>(
    alloc: Global,
    mask: &'a MaskExpression,
) -> Result<Vec<PartRef<'a>>, NoMemory>
    ensures { IfOk result (λ parts. parts_seen parts.items ≡ tables.mask_parts mask.now) }
{
    listed(
        alloc,
        [messages(1, MessagesRef::StructSelect(optional(&mask.select)))],
    )
}

// its StructSelect
pub(crate) fn mask_struct_parts<'a>(
    alloc: Global,
    select: &'a MaskStruct,
) -> Result<Vec<PartRef<'a>>, NoMemory>
    ensures { IfOk result (λ parts. parts_seen parts.items ≡ tables.mask_struct_parts select.now) }
{
    listed(
        alloc,
        [messages(1, MessagesRef::StructItem(select.struct_items.as_slice()))],
    )
}

// its StructItem
pub(crate) fn mask_item_parts<'a>(
    alloc: Global,
    item: &'a MaskItem,
) -> Result<Vec<PartRef<'a>>, NoMemory>
    ensures { IfOk result (λ parts. parts_seen parts.items ≡ tables.mask_item_parts item.now) }
{
    listed(alloc, [int32(1, &item.field), presence(2, item.child)])
}

// FunctionOption
pub(crate) fn option_parts<'a>(
    alloc: Global,
    option: &'a FunctionOption,
) -> Result<Vec<PartRef<'a>>, NoMemory>
    ensures { IfOk result (λ parts. parts_seen parts.items ≡ tables.option_parts option.now) }
{
    listed(
        alloc,
        [
            block(1, option.name.bytes()),
            blocks(2, option.preference.as_slice()),
        ],
    )
}

// Expression.ReferenceSegment
pub(crate) fn segment_parts<'a>(
    alloc: Global,
    segment: &'a ReferenceSegment,
) -> Result<Vec<PartRef<'a>>, NoMemory>
    ensures { IfOk result (λ parts. parts_seen parts.items ≡ tables.segment_parts segment.now) }
{
    listed(
        alloc,
        [messages(2, MessagesRef::StructField(optional(&segment.struct_field)))],
    )
}

// its StructField
pub(crate) fn struct_field_parts<'a>(
    alloc: Global,
    field: &'a StructField,
) -> Result<Vec<PartRef<'a>>, NoMemory>
    ensures { IfOk result (λ parts. parts_seen parts.items ≡ tables.struct_field_parts field.now) }
{
    listed(alloc, [int32(1, &field.field), presence(2, field.child)])
}

// a type that has nothing but its nullability
fn plain_type<'a>(
    alloc: Global,
    number: u32,
    nullability: u32,
) -> Result<Vec<PartRef<'a>>, NoMemory>
    ensures { IfOk result (λ parts. parts_seen parts.items ≡ member number shapes.PlainType nullability ∷ []) }
{
    listed(
        alloc,
        [messages(number, MessagesRef::PlainType(nullability))],
    )
}

// Type
pub(crate) fn type_parts<'a>(alloc: Global, ty: &'a RawType) -> Result<Vec<PartRef<'a>>, NoMemory>
    ensures { IfOk result (λ parts. parts_seen parts.items ≡ tables.type_parts ty.now (out-RawType ty.now)) }
{
    match ty {
        RawType::Missing | RawType::Unknown { .. } => Ok(Vec::new(alloc)),
        RawType::Bool { nullability } => plain_type(alloc, 1, *nullability),
        RawType::I8 { nullability } => plain_type(alloc, 2, *nullability),
        RawType::I16 { nullability } => plain_type(alloc, 3, *nullability),
        RawType::I32 { nullability } => plain_type(alloc, 5, *nullability),
        RawType::I64 { nullability } => plain_type(alloc, 7, *nullability),
        RawType::String { nullability } => plain_type(alloc, 12, *nullability),
        RawType::Binary { nullability } => plain_type(alloc, 13, *nullability),
        RawType::Timestamp { nullability } => plain_type(alloc, 14, *nullability),
        RawType::Date { nullability } => plain_type(alloc, 16, *nullability),
        RawType::Decimal { .. } => listed(alloc, [messages(24, MessagesRef::DecimalType(ty))]),
        RawType::Struct { types } => listed(
            alloc,
            [messages(25, MessagesRef::TypeStruct(types.as_slice()))],
        ),
    }
}

// a type of which only the nullability is read
pub(crate) fn plain_parts<'a>(alloc: Global, nullability: u32) -> Result<Vec<PartRef<'a>>, NoMemory>
    ensures { IfOk result (λ parts. parts_seen parts.items ≡ tables.plain_parts nullability) }
{
    listed(alloc, [uint32(2, nullability)])
}

// Type.Decimal
pub(crate) fn decimal_type_parts<'a>(
    alloc: Global,
    ty: &'a RawType,
) -> Result<Vec<PartRef<'a>>, NoMemory>
    ensures { IfOk result (λ parts. parts_seen parts.items ≡ tables.decimal_type_parts ty.now) }
{
    match ty {
        RawType::Decimal {
            scale,
            precision,
            nullability,
        } => {
            listed(
                alloc,
                [
                    int32(1, scale),
                    int32(2, precision),
                    uint32(4, *nullability),
                ],
            )
        }
        _ => Ok(Vec::new(alloc)),
    }
}

// Type.Struct where it stands by itself
pub(crate) fn struct_type_parts<'a>(
    alloc: Global,
    struct_type: &'a StructType,
) -> Result<Vec<PartRef<'a>>, NoMemory>
    ensures { IfOk result (λ parts. parts_seen parts.items ≡ tables.struct_type_parts struct_type.now) }
{
    listed(
        alloc,
        [messages(1, MessagesRef::DataType(struct_type.types.as_slice()))],
    )
}

// Type.Struct where it is a type
pub(crate) fn type_struct_parts<'a>(
    alloc: Global,
    types: &'a [RawType],
) -> Result<Vec<PartRef<'a>>, NoMemory>
    ensures { IfOk result (λ parts. parts_seen parts.items ≡ tables.struct_type_parts (record { types = types.now })) }
{
    listed(alloc, [messages(1, MessagesRef::DataType(types))])
}

// the member of a literal, and whether it is nullable
fn literal_with<'a>(
    alloc: Global,
    number: u32,
    held: HeldRef<'a>,
    nullable: bool,
) -> Result<Vec<PartRef<'a>>, NoMemory>
    ensures { IfOk result (λ parts. parts_seen parts.items ≡ tables.literal_with (held_seen number held.entry) nullable) }
{
    listed(alloc, [PartRef { number, held }, truth(50, nullable)])
}

// Expression.Literal
pub(crate) fn literal_parts<'a>(
    alloc: Global,
    literal: &'a RawLiteral,
) -> Result<Vec<PartRef<'a>>, NoMemory>
    ensures { IfOk result (λ parts. parts_seen parts.items ≡ tables.literal_parts literal.now) }
{
    match literal {
        RawLiteral::Missing | RawLiteral::Unknown { .. } => Ok(Vec::new(alloc)),
        RawLiteral::Boolean { value, nullable } => literal_with(
            alloc,
            1,
            HeldRef::TruthMember(*value),
            *nullable,
        ),
        RawLiteral::I8 { value, nullable } => literal_with(
            alloc,
            2,
            HeldRef::Int32Member(value),
            *nullable,
        ),
        RawLiteral::I16 { value, nullable } => literal_with(
            alloc,
            3,
            HeldRef::Int32Member(value),
            *nullable,
        ),
        RawLiteral::I32 { value, nullable } => literal_with(
            alloc,
            5,
            HeldRef::Int32Member(value),
            *nullable,
        ),
        RawLiteral::I64 { value, nullable } => literal_with(
            alloc,
            7,
            HeldRef::Int64Member(Some(*value)),
            *nullable,
        ),
        RawLiteral::String { value, nullable } => literal_with(
            alloc,
            12,
            HeldRef::BlockMember(value.text().as_bytes()),
            *nullable,
        ),
        RawLiteral::Binary { value, nullable } => literal_with(
            alloc,
            13,
            HeldRef::BlockMember(value.bytes()),
            *nullable,
        ),
        RawLiteral::Timestamp { value, nullable } => literal_with(
            alloc,
            14,
            HeldRef::Int64Member(Some(*value)),
            *nullable,
        ),
        RawLiteral::Date { value, nullable } => literal_with(
            alloc,
            16,
            HeldRef::Int32Member(value),
            *nullable,
        ),
        RawLiteral::Decimal { nullable, .. } => literal_with(
            alloc,
            24,
            HeldRef::Messages(MessagesRef::DecimalLiteral(literal)),
            *nullable,
        ),
        RawLiteral::Null { type_, nullable } => literal_with(
            alloc,
            29,
            HeldRef::Messages(MessagesRef::DataType(slice::from_ref(type_))),
            *nullable,
        ),
    }
}

// Expression.Literal.Decimal
pub(crate) fn decimal_parts<'a>(
    alloc: Global,
    literal: &'a RawLiteral,
) -> Result<Vec<PartRef<'a>>, NoMemory>
    ensures { IfOk result (λ parts. parts_seen parts.items ≡ tables.decimal_parts literal.now) }
{
    match literal {
        RawLiteral::Decimal {
            value,
            precision,
            scale,
            ..
        } => {
            listed(
                alloc,
                [
                    block(1, value.bytes()),
                    int32(2, precision),
                    int32(3, scale),
                ],
            )
        }
        _ => Ok(Vec::new(alloc)),
    }
}

// Expression.Literal.Struct
pub(crate) fn literal_row_parts<'a>(
    alloc: Global,
    row: &'a LiteralRow,
) -> Result<Vec<PartRef<'a>>, NoMemory>
    ensures { IfOk result (λ parts. parts_seen parts.items ≡ tables.literal_row_parts row.now) }
{
    listed(
        alloc,
        [messages(1, MessagesRef::Literal(row.fields.as_slice()))],
    )
}
