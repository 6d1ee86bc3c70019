// The rows of the table of functions.
use plan_typed::Func;

/// Whether a function is of the values of one row, or of those of a group of rows.
#[derive(Clone, Copy, Debug, PartialEq, Eq, Hash)]
pub enum Class {
    Scalar,
    Aggregate,
}

/// The kind of a function's result.
#[derive(Clone, Copy, Debug, PartialEq, Eq, Hash)]
pub enum ResultRule {
    /// The kind of the first argument.
    Same,
    Bool,
    I64,
    /// The decimal that the call declares.
    DeclaredDecimal,
}

/// A row of the table: a function at arguments of some kinds.
#[derive(Clone, Copy, Debug)]
pub struct Row {
    /// The function's name in its file.
    pub name: &'static str,
    /// The name, a colon, and the short names of the arguments with underscores between them.
    pub key: &'static str,
    pub func: Func,
    pub result: ResultRule,
}
