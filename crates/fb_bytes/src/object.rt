// Objects that can be laid out as bytes.
ghost use Rattle.std.specs.Prelude.{◌≡◌};
ghost use Rattle.std.specs.List.{All};

use sub_types::ByteList;

/// An object of a buffer, with all that it leads to.
#[derive(Debug, Drop)]
#[cycle(object)]
pub enum FbObject {
    /// A table.
    Table(Vec<FbField>),
    /// A vector of offsets to tables.
    Tables(Vec<FbObject>),
    /// A vector of structs of `width` bytes each, one after the other. The width is a multiple of 8.
    Structs { width: u32, bytes: ByteList },
    /// A string, whose bytes need not be UTF-8.
    Text(ByteList),
}

/// A field of a table. In a table that is written the slots rise and are below 64.
#[derive(Debug, Drop)]
#[cycle(object)]
pub enum FbField {
    /// The low `width` bytes of a number, which are 1, 2, 4 or 8.
    Scalar { slot: u16, width: u8, value: u64 },
    /// An offset to an object.
    Child { slot: u16, object: FbObject },
}

impl FbObject {
    ghost use Rattle.fb_bytes.specs.Layout.{table_laid, tables_laid, structs_laid, text_laid};
    ghost use Rattle.fb_bytes.specs.Object.{laid, parts_of, laid_each, IsTable, IsSound, IsSoundTable, AreSoundFields, AreStructs, HasRisingSlots};

    /// A table of these fields.
    pub fn of_fields(fields: Vec<FbField>) -> FbObject
        ensures laid { laid result ≡ table_laid (parts_of fields.items) }
        ensures table { IsTable result }
        ensures sound { HasRisingSlots 0 (parts_of fields.items) → AreSoundFields fields.items
            → IsSound result }
    {
        FbObject::Table(fields)
    }

    /// A vector of offsets to these tables.
    pub fn of_tables(tables: Vec<FbObject>) -> FbObject
        ensures laid { laid result ≡ tables_laid (laid_each tables.items) }
        ensures sound { All IsSoundTable tables.items → IsSound result }
    {
        FbObject::Tables(tables)
    }

    /// A vector of structs of `width` bytes each.
    pub fn of_structs(width: u32, bytes: ByteList) -> FbObject
        ensures laid { laid result ≡ structs_laid width bytes }
        ensures sound { AreStructs width bytes → IsSound result }
    {
        FbObject::Structs { width, bytes }
    }

    /// A string.
    pub fn of_text(bytes: ByteList) -> FbObject
        ensures laid { laid result ≡ text_laid bytes }
        ensures sound { IsSound result }
    {
        FbObject::Text(bytes)
    }
}
