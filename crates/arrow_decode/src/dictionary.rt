// The dictionary of a column.
ghost use Rattle.std.specs.Option.{ForSome};
ghost use Rattle.arrow_decode.specs.Dictionary.{AreTexts};

use col_text::TextCol;

/// The dictionary of a column of indices (Arrow columnar format, "Dictionary-encoded Layout"): its texts, or
/// none where it is bad.
#[derive(Debug, Drop)]
pub struct DictColumn {
    /// The place of the column among those of the file.
    pub column: u32,
    pub values: Option<TextCol>,
    pub ghost texts: { ForSome values AreTexts },
}
