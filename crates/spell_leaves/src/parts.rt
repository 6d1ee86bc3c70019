// What a message holds, field by field.
ghost use Rattle.std.specs.Prelude.{◌≡◌, ◌<◌, [], IfOk, get_or, length, map};
ghost use Rattle.plan_spell.specs.Parts.{parts_of};
ghost use Rattle.spell_leaves.specs.Seen.{messages_seen, parts_seen};

use crate::fields::item_at;
use crate::leaves;
use crate::part::{MessagesRef, PartRef};
use std::alloc::Global;
use sub_types::NoMemory;

/// The fields of one of the messages, in the order in which they are written.
pub(crate) fn parts_at<'a>(
    alloc: Global,
    messages: MessagesRef<'a>,
    at: usize,
) -> Result<Vec<PartRef<'a>>, NoMemory>
    requires { at < length (messages_seen messages).nodes }
    ensures { IfOk result (λ parts. parts_seen parts.items ≡ get_or (map (parts_of (messages_seen messages.entry).shape) (messages_seen messages.entry).nodes) at []) }
{
    match messages {
        MessagesRef::ExtensionUri(uris) => leaves::uri_parts(alloc, &uris[at]),
        MessagesRef::ExtensionDeclaration(functions) => leaves::declaration_parts(
            alloc,
            &functions[at],
        ),
        MessagesRef::ExtensionFunction(function) => leaves::function_parts(alloc, function),
        MessagesRef::RelCommon(commons) => leaves::common_parts(alloc, &commons[at]),
        MessagesRef::Emit(mapping) => leaves::emit_parts(alloc, mapping),
        MessagesRef::NamedStruct(schemas) => leaves::named_struct_parts(alloc, &schemas[at]),
        MessagesRef::StructType(structs) => leaves::struct_type_parts(alloc, &structs[at]),
        MessagesRef::TypeStruct(types) => leaves::type_struct_parts(alloc, types),
        MessagesRef::NamedTable(tables) => leaves::named_table_parts(alloc, &tables[at]),
        MessagesRef::LiteralRow(rows) => leaves::literal_row_parts(alloc, &rows[at]),
        MessagesRef::LocalFiles(files) => leaves::local_files_parts(alloc, &files[at]),
        MessagesRef::FileItem(items) => leaves::file_item_parts(alloc, &items[at]),
        MessagesRef::MaskExpression(masks) => leaves::mask_parts(alloc, &masks[at]),
        MessagesRef::StructSelect(selects) => leaves::mask_struct_parts(alloc, &selects[at]),
        MessagesRef::StructItem(items) => leaves::mask_item_parts(alloc, item_at(items, at)),
        MessagesRef::FunctionOption(options) => leaves::option_parts(alloc, &options[at]),
        MessagesRef::ReferenceSegment(segments) => leaves::segment_parts(
            alloc,
            item_at(segments, at),
        ),
        MessagesRef::StructField(fields) => leaves::struct_field_parts(alloc, item_at(fields, at)),
        MessagesRef::Literal(literals) => leaves::literal_parts(alloc, &literals[at]),
        MessagesRef::DecimalLiteral(literal) => leaves::decimal_parts(alloc, literal),
        MessagesRef::DataType(types) => leaves::type_parts(alloc, &types[at]),
        MessagesRef::PlainType(nullability) => leaves::plain_parts(alloc, nullability),
        MessagesRef::DecimalType(ty) => leaves::decimal_type_parts(alloc, ty),
    }
}
