// What a measure takes of rows.
use batch::Column;

/// What a measure takes of the rows of a batch, evaluated: its filter at each row, and its argument at those for which the filter
/// is true, one behind the other. Without a filter each row is taken, and without an argument each row that is taken stands for
/// true. Contracts see it as what the measure takes of each row, by `members_of`.
#[derive(Drop)]
pub struct Taken {
    /// The filter's values.
    pub tests: Option<Column>,
    /// The argument's values.
    pub values: Option<Column>,
}
