// What a footer and a record batch message say of a record batch.
ghost use Rattle.std.specs.Prelude.{◌≡◌, ℤ, List};

use std::marker::Model;

/// Where a record batch message stands in a file (File.fbs, `Block`), all in bytes.
#[derive(Clone, Copy, Debug)]
pub struct Block {
    pub offset: i64,
    /// The mark and the size before the metadata are counted with it.
    pub meta_len: i32,
    pub body_len: i64,
}

/// A list of pairs of numbers, which contracts see as the list.
#[derive(Debug, Drop)]
pub struct Pairs {
    items: Vec<(i64, i64)>,
}

impl Model for Pairs {
    ghost Value = { List (ℤ × ℤ) };

    ghost view = { λ pairs. pairs.items.items };
}

impl Pairs {
    /// The pairs of the vector. It takes no memory.
    pub fn from_vec(items: Vec<(i64, i64)>) -> Pairs
        ensures { result ≡ items.items }
    {
        Pairs { items }
    }

    pub fn pairs(&self) -> &[(i64, i64)]
        ensures { result.now ≡ self.now }
    {
        &self.items
    }
}

/// What a record batch message says besides the length of its body (Message.fbs, `RecordBatch`).
#[derive(Debug, Drop)]
pub struct RecordMeta {
    /// The number of rows.
    pub length: i64,
    /// For each column the number of its values and of its nulls.
    pub nodes: Pairs,
    /// For each buffer where it begins in the body, and its length in bytes.
    pub buffers: Pairs,
}
