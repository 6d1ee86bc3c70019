// The faults that data may show while a plan runs.

/// What is wrong with the data.
#[derive(Clone, Copy, Debug, PartialEq, Eq, Hash)]
pub enum FaultKind {
    /// A result outside its type.
    Overflow,
    DivideByZero,
    /// A value that can't be cast.
    BadCast,
    /// A start or a length that `substring` doesn't take.
    BadStart,
    /// A text or binary value of more than 1,048,576 bytes.
    TextTooLong,
    /// A null in a column that is required.
    NullInRequired,
    /// A record batch that can't be read: its file's number and its place in the file, from 0.
    BadBatch { file: u32, block: u32 },
    /// More rows than a relation or an answer may have.
    TooManyRows,
    /// A scalar subquery of more than one row.
    ManyRows,
}

/// A fault, and the number of the relation that shows it.
#[derive(Clone, Copy, Debug, PartialEq, Eq, Hash)]
pub struct Fault {
    pub relation: u32,
    pub kind: FaultKind,
}
