// What a footer says of a column.
use sub_types::{ByteList, Kind};

/// How the values of a column stand in its buffers (Arrow columnar format, "Physical Memory Layout").
#[derive(Clone, Copy, Debug, PartialEq, Eq, Hash)]
pub enum Layout {
    /// Values of the kind's width, or offsets of 4 bytes and bytes.
    Plain,
    /// Offsets of 8 bytes and bytes.
    Wide,
    /// Whole numbers of `width` bytes, which count the values of the dictionary `id` from 0. `wide` says
    /// whether the dictionary's own values have offsets of 8 bytes.
    Index {
        id: i64,
        width: u8,
        signed: bool,
        wide: bool,
    },
}

/// What is known of a column's buffers.
#[derive(Clone, Copy, Debug, PartialEq, Eq, Hash)]
pub enum Shape {
    /// The column can be read, as values of this kind.
    Known { kind: Kind, layout: Layout },
    /// The column can't be read, and has this many buffers.
    Skip { buffers: u8 },
}

/// A column of a file.
#[derive(Debug, Drop)]
pub struct FieldMeta {
    /// The bytes of the name, which need not be UTF-8.
    pub name: ByteList,
    pub nullable: bool,
    pub shape: Shape,
}
