// The ten kinds of values, and the type of a column.

/// A kind of values.
#[derive(Clone, Copy, Debug, PartialEq, Eq, Hash)]
pub enum Kind {
    Bool,
    I8,
    I16,
    I32,
    I64,
    /// UTF-8 text.
    Text,
    /// Bytes of any content.
    Binary,
    /// Days since 1970-01-01.
    Date,
    /// Microseconds since 1970-01-01, without a zone.
    Timestamp,
    /// A whole number with `precision` digits at most, which stands for itself divided by 10^`scale`.
    Decimal { precision: u8, scale: u8 },
}

/// The type of a column: a kind, and whether nulls may stand in it.
#[derive(Clone, Copy, Debug, PartialEq, Eq, Hash)]
pub struct Ty {
    pub kind: Kind,
    pub nullable: bool,
}
