// An argument of a function.

use batch::Column;
use sub_types::Value;

/// What an argument of a function is worth at so many places: a column with a value for each of them, or one constant at all of
/// them.
#[derive(Clone, Copy)]
pub enum Operand<'a> {
    Column(&'a Column),
    Constant(&'a Value),
}
