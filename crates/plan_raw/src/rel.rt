// Relations as they are written (Substrait `Rel`).
use crate::{Grouping, Measure, RawExpr, RawSource, SortField};
use plan_leaves::{Boxed, Items, MaskExpression, NamedStruct, RelCommon};

/// The oneof `offset_mode` of a fetch.
#[cycle(raw)]
#[derive(Drop)]
pub enum RawOffset {
    Missing,
    Offset(i64),
    OffsetExpr(Boxed<RawExpr>),
}

/// The oneof `count_mode` of a fetch.
#[cycle(raw)]
#[derive(Drop)]
pub enum RawCount {
    Missing,
    Count(i64),
    CountExpr(Boxed<RawExpr>),
}

/// A `Rel`, by the member of its oneof `rel_type`. `common` is field 1 of each relation.
#[cycle(raw)]
#[derive(Drop)]
pub enum RawRel {
    Missing,
    Unknown {
        number: u32,
    },
    Read {
        common: Option<RelCommon>,
        base_schema: Option<NamedStruct>,
        filter: Option<Boxed<RawExpr>>,
        projection: Option<MaskExpression>,
        source: RawSource,
        /// It must be readable, and is never applied.
        best_effort_filter: Option<Boxed<RawExpr>>,
    },
    Filter {
        common: Option<RelCommon>,
        input: Option<Boxed<RawRel>>,
        condition: Option<Boxed<RawExpr>>,
    },
    Fetch {
        common: Option<RelCommon>,
        input: Option<Boxed<RawRel>>,
        offset: RawOffset,
        count: RawCount,
    },
    Aggregate {
        common: Option<RelCommon>,
        input: Option<Boxed<RawRel>>,
        groupings: Items<Grouping>,
        measures: Items<Measure>,
        grouping_expressions: Items<RawExpr>,
    },
    Sort {
        common: Option<RelCommon>,
        input: Option<Boxed<RawRel>>,
        sorts: Items<SortField>,
    },
    Join {
        common: Option<RelCommon>,
        left: Option<Boxed<RawRel>>,
        right: Option<Boxed<RawRel>>,
        expression: Option<Boxed<RawExpr>>,
        post_join_filter: Option<Boxed<RawExpr>>,
        type_: u32,
    },
    Project {
        common: Option<RelCommon>,
        input: Option<Boxed<RawRel>>,
        expressions: Items<RawExpr>,
    },
    Set {
        common: Option<RelCommon>,
        inputs: Items<RawRel>,
        op: u32,
    },
    Cross {
        common: Option<RelCommon>,
        left: Option<Boxed<RawRel>>,
        right: Option<Boxed<RawRel>>,
    },
}
