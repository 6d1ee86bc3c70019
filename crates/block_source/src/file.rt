// The files of a table, and where their blocks stand.
ghost use Rattle.std.specs.Prelude.{IsSome};
ghost use Rattle.std.specs.List.{All};
ghost use Rattle.std.proofs.Props.{props};
ghost use Rattle.arrow_read.specs.Known.{known_column};

use arrow_read::FileHead;

/// A file of a table: its head, and for each column of the table its place among the file's columns.
#[derive(Debug, Drop)]
pub struct BlockFile {
    pub head: FileHead,
    pub wanted: Vec<u32>,
    pub ghost known: { All (λ column. IsSome (known_column head.schema.columns column)) wanted.items } by { Prim.hlevel props },
}

/// Where a block of a table stands: the place of its file among the table's files, and its own place in the footer.
#[derive(Clone, Copy, Debug, PartialEq, Eq)]
pub struct BlockPlace {
    pub file: u32,
    pub block: u32,
}
