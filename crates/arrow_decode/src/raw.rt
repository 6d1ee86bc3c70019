// A record batch as its metadata and its body.
ghost use Rattle.std.specs.List.{All};
ghost use Rattle.arrow_decode.specs.RawColumn.{IsWanted, AreWanted-prop};

use arrow_meta::{Layout, RecordMeta};
use sub_types::Kind;

/// A record batch that was read and not decoded yet.
#[derive(Debug, Drop)]
pub struct Raw {
    pub meta: RecordMeta,
    /// The wanted columns: their places among those of the file, kinds and layouts.
    pub columns: Vec<(u32, Kind, Layout)>,
    /// For each column of the file, how many buffers it has.
    pub shapes: Vec<u8>,
    pub body: Vec<u8>,
    pub ghost wanted: { All (IsWanted shapes.items) columns.items } by { AreWanted-prop shapes.items columns.items },
}
