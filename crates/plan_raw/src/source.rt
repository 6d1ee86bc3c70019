// What a read relation reads (Substrait `ReadRel`).
use crate::RawExpr;
use plan_leaves::{Items, LiteralRow, LocalFiles, NamedTable};

/// What a read relation reads, the oneof `read_type`.
#[cycle(raw)]
#[derive(Drop)]
pub enum RawSource {
    Missing,
    VirtualTable(VirtualTable),
    LocalFiles(LocalFiles),
    NamedTable(NamedTable),
}

/// A `ReadRel.VirtualTable`. The rows of `values` come first.
#[cycle(raw)]
#[derive(Drop)]
pub struct VirtualTable {
    pub values: Items<LiteralRow>,
    pub expressions: Items<ExprRow>,
}

/// An `Expression.Nested.Struct`.
#[cycle(raw)]
#[derive(Drop)]
pub struct ExprRow {
    pub fields: Items<RawExpr>,
}
