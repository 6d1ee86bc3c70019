// The files and tables that a read relation may name (Substrait `ReadRel.LocalFiles` and `ReadRel.NamedTable`).
ghost use Rattle.std.specs.Prelude.{◌≡◌, IfOk};
ghost use Rattle.pb_wire.specs.Payloads.{fields_of};
ghost use Rattle.plan_parts.specs.Parts.{named_table_of, path_member, file_item_of, local_files_of};

use plan_leaves::{FileItem, ItemPath, Items, LocalFiles, NamedTable};
use plan_scan::{Message, OneOf, Shape, field};
use std::alloc::Global;
use sub_types::NoMemory;

/// A `NamedTable`.
pub fn named_table(alloc: Global, message: &Message<'_>) -> Result<NamedTable, NoMemory>
    ensures { IfOk result (λ table. table ≡ named_table_of (fields_of message.now.bytes)) }
{
    Ok(NamedTable {
        names: Items::from_vec(message.texts(alloc, field::named_table::NAMES)?),
    })
}

/// A `LocalFiles`.
pub fn local_files(alloc: Global, message: &Message<'_>) -> Result<LocalFiles, NoMemory>
    requires { message.now.shape ≡ Shape.LocalFiles }
    ensures { IfOk result (λ files. files ≡ local_files_of (fields_of message.now.bytes)) }
{
    let mut items = Vec::new(alloc);
    let mut left = message.children(field::local_files::ITEMS, Shape::FileItem);
    while let Some(item) = left.next() {
        items.push(file_item(alloc, &item)?)?;
    }
    Ok(LocalFiles {
        items: Items::from_vec(items),
    })
}

fn file_item(alloc: Global, message: &Message<'_>) -> Result<FileItem, NoMemory>
    ensures { IfOk result (λ item. item ≡ file_item_of (fields_of message.now.bytes)) }
{
    let arrow = message.has(field::file_item::ARROW);
    match message.oneof(OneOf::PathType) {
        None => Ok(FileItem {
            path: ItemPath::Missing,
            arrow,
        }),
        Some((number, won)) => Ok(FileItem {
            path: item_path(alloc, number, &won)?,
            arrow,
        }),
    }
}

fn item_path(alloc: Global, number: u32, won: &Message<'_>) -> Result<ItemPath, NoMemory>
    ensures { IfOk result (λ path. path ≡ path_member number (fields_of won.now.bytes)) }
{
    if number == field::file_item::URI_PATH {
        Ok(ItemPath::UriPath(won.byte_list(alloc, field::file_item::URI_PATH)?))
    } else {
        Ok(ItemPath::UriFile(won.byte_list(alloc, field::file_item::URI_FILE)?))
    }
}
