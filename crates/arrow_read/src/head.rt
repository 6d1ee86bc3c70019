// The head of a file.
ghost use Rattle.std.specs.Prelude.{◌≡◌, ◌<◌, ◌^◌, IfOk, vec_len};
ghost use Rattle.arrow_read.specs.Sound.{ArePlaced, ArePlaced-prop, AreShapes, AreShapes-prop, AreIndexed};

use arrow_decode::DictColumn;
use arrow_meta::{Block, RecordMeta, Schema};

/// What is kept of a file that was opened: its columns, where its record batches stand, and the dictionaries
/// of its columns of indices.
#[derive(Debug, Drop)]
pub struct FileHead {
    pub schema: Schema,
    pub blocks: Vec<Block>,
    /// The metadata of each block, none where it is bad.
    pub metas: Vec<Option<RecordMeta>>,
    /// A dictionary for each column of indices, in their order.
    pub dictionaries: Vec<DictColumn>,
    pub ghost few: { vec_len blocks < 2 ^ 27 },
    pub ghost same_count: { vec_len metas ≡ vec_len blocks },
    pub ghost placed: { ArePlaced blocks.items metas.items } by { ArePlaced-prop blocks.items metas.items },
    pub ghost shapes: { AreShapes schema.columns } by { AreShapes-prop schema.columns },
    pub ghost indexed: { AreIndexed schema.columns dictionaries.items },
}
