// What functions are called with (Substrait `FunctionArgument`).
use crate::RawExpr;
use plan_leaves::RawType;
use sub_types::ByteList;

/// A `FunctionArgument`.
#[cycle(raw)]
#[derive(Drop)]
pub enum FunctionArgument {
    Missing,
    /// The name of an enumeration's value.
    Enum(ByteList),
    TypeArgument(RawType),
    Value(RawExpr),
}
