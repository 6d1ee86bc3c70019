// Checked relations and plans.
use crate::{Expr, Func};
use plan_leaves::{Boxed, Items};
use sub_types::{ByteList, Ty};

/// The kinds of joins (Substrait `JoinRel.JoinType` 1 to 6).
#[derive(Clone, Copy, Debug, PartialEq, Eq, Hash)]
pub enum JoinKind {
    Inner,
    Outer,
    Left,
    Right,
    LeftSemi,
    LeftAnti,
}

/// The set operations (Substrait `SetRel.SetOp`).
#[derive(Clone, Copy, Debug, PartialEq, Eq, Hash)]
pub enum SetOp {
    MinusPrimary,
    MinusPrimaryAll,
    IntersectionPrimary,
    IntersectionMultiset,
    IntersectionMultisetAll,
    UnionDistinct,
    UnionAll,
}

/// A measure of an aggregate: a function of the rows for which the filter is true.
#[derive(Drop)]
pub struct TypedMeasure {
    pub func: Func,
    pub arg: Option<Expr>,
    pub filter: Option<Expr>,
    pub ty: Ty,
}

/// A measure of grouping sets, over distinct values or all.
#[derive(Drop)]
pub struct SetMeasure {
    pub measure: TypedMeasure,
    pub distinct: bool,
}

/// A key of a sort.
#[derive(Drop)]
pub struct SortKey {
    pub expr: Expr,
    pub descending: bool,
    pub nulls_first: bool,
}

/// What a read relation reads: tables by name, in order (one for a named table), or rows of expressions.
#[derive(Drop)]
pub enum Source {
    Named(Items<ByteList>),
    Rows(Items<Items<Expr>>),
}

/// What a relation does.
#[cycle(rel)]
#[derive(Drop)]
pub enum Op {
    /// Columns of the source in the mask's order, for the rows for which the filter is true.
    Read {
        source: Source,
        names: Items<ByteList>,
        types: Items<Ty>,
        filter: Option<Expr>,
        mask: Items<u32>,
    },
    Filter {
        input: Boxed<Rel>,
        condition: Expr,
    },
    Project {
        input: Boxed<Rel>,
        exprs: Items<Expr>,
    },
    Fetch {
        input: Boxed<Rel>,
        offset: u64,
        count: Option<u64>,
    },
    Sort {
        input: Boxed<Rel>,
        keys: Items<SortKey>,
    },
    Aggregate {
        input: Boxed<Rel>,
        groups: Items<Expr>,
        measures: Items<TypedMeasure>,
    },
    /// An aggregate over several sets of its groups, by their places, or with measures over distinct values.
    GroupSets {
        input: Boxed<Rel>,
        groups: Items<Expr>,
        sets: Items<Items<u32>>,
        measures: Items<SetMeasure>,
    },
    Join {
        left: Boxed<Rel>,
        right: Boxed<Rel>,
        kind: JoinKind,
        on: Expr,
        post: Option<Expr>,
    },
    Cross {
        left: Boxed<Rel>,
        right: Boxed<Rel>,
    },
    Set {
        inputs: Items<Rel>,
        op: SetOp,
    },
}

/// A checked relation: its number in the plan, what it does, the columns of its direct output that it emits, in order, and
/// the types of what it emits.
#[cycle(rel)]
#[derive(Drop)]
pub struct Rel {
    pub number: u32,
    pub op: Op,
    pub emit: Items<u32>,
    pub columns: Items<Ty>,
}

/// A checked plan: the root's input and the names of its columns.
#[derive(Drop)]
pub struct Typed {
    pub rel: Rel,
    pub names: Items<ByteList>,
}
