// Worked joins: rows of both sides, and the rows and the end that a join of them has. A letter stands as its code.
use crate::batches::{Number, batch_of_rows, value_of};
use crate::conditions::{Condition, RELATION, spec_of};
use crate::rests::Rest;
use crate::rows::are_same;
use crate::trial::{by_table, table_of};
use plan_leaves::Items;
use plan_typed::JoinKind;
use std::alloc::Global;
use sub_types::{Fault, FaultKind, NoMemory, Value};

type Two = [Number; 2];

type Four = [Number; 4];

const N: Number = None;

/// A join by the first columns of both sides, and what it gives.
struct Worked {
    name: &'static str,
    kind: JoinKind,
    rest: Rest,
    left: &'static [Two],
    right: &'static [Two],
    /// The rows of a join that gives left rows alone.
    alone: &'static [Two],
    rows: &'static [Four],
    end: Option<FaultKind>,
}

const LEFT: &[Two] = &[
    [Some(1), Some(97)],
    [Some(1), Some(98)],
    [N, Some(99)],
    [Some(2), Some(100)],
];

const RIGHT: &[Two] = &[[Some(1), Some(120)], [Some(1), Some(121)], [N, Some(122)]];

const TENS: &[Two] = &[[Some(1), Some(10)], [Some(2), Some(10)]];

const WORKED: [Worked; 14] = [
    Worked {
        name: "left",
        kind: JoinKind::Left,
        rest: Rest::None,
        left: LEFT,
        right: RIGHT,
        alone: &[],
        rows: &[
            [Some(1), Some(97), Some(1), Some(120)],
            [Some(1), Some(97), Some(1), Some(121)],
            [Some(1), Some(98), Some(1), Some(120)],
            [Some(1), Some(98), Some(1), Some(121)],
            [N, Some(99), N, N],
            [Some(2), Some(100), N, N],
        ],
        end: None,
    },
    Worked {
        name: "outer",
        kind: JoinKind::Outer,
        rest: Rest::None,
        left: LEFT,
        right: RIGHT,
        alone: &[],
        rows: &[
            [Some(1), Some(97), Some(1), Some(120)],
            [Some(1), Some(97), Some(1), Some(121)],
            [Some(1), Some(98), Some(1), Some(120)],
            [Some(1), Some(98), Some(1), Some(121)],
            [N, Some(99), N, N],
            [Some(2), Some(100), N, N],
            [N, N, N, Some(122)],
        ],
        end: None,
    },
    Worked {
        name: "left over no rows",
        kind: JoinKind::Left,
        rest: Rest::None,
        left: LEFT,
        right: &[],
        alone: &[],
        rows: &[
            [Some(1), Some(97), N, N],
            [Some(1), Some(98), N, N],
            [N, Some(99), N, N],
            [Some(2), Some(100), N, N],
        ],
        end: None,
    },
    Worked {
        name: "semi",
        kind: JoinKind::LeftSemi,
        rest: Rest::None,
        left: LEFT,
        right: RIGHT,
        alone: &[[Some(1), Some(97)], [Some(1), Some(98)]],
        rows: &[],
        end: None,
    },
    Worked {
        name: "anti",
        kind: JoinKind::LeftAnti,
        rest: Rest::None,
        left: LEFT,
        right: RIGHT,
        alone: &[[N, Some(99)], [Some(2), Some(100)]],
        rows: &[],
        end: None,
    },
    Worked {
        name: "a table with itself",
        kind: JoinKind::Inner,
        rest: Rest::None,
        left: &[[Some(1), N], [Some(2), N]],
        right: &[[Some(1), N], [Some(2), N]],
        alone: &[],
        rows: &[[Some(1), N, Some(1), N], [Some(2), N, Some(2), N]],
        end: None,
    },
    Worked {
        name: "a quotient below five",
        kind: JoinKind::Inner,
        rest: Rest::BelowFive,
        left: TENS,
        right: &[[Some(1), Some(2)], [Some(2), Some(3)], [Some(9), Some(0)]],
        alone: &[],
        rows: &[[Some(2), Some(10), Some(2), Some(3)]],
        end: None,
    },
    Worked {
        name: "a quotient that faults",
        kind: JoinKind::Inner,
        rest: Rest::BelowFive,
        left: TENS,
        right: &[[Some(2), Some(0)], [Some(1), Some(2)], [Some(2), Some(3)]],
        alone: &[],
        rows: &[],
        end: Some(FaultKind::DivideByZero),
    },
    Worked {
        name: "a quotient over no rows",
        kind: JoinKind::Left,
        rest: Rest::BelowFive,
        left: TENS,
        right: &[],
        alone: &[],
        rows: &[[Some(1), Some(10), N, N], [Some(2), Some(10), N, N]],
        end: None,
    },
    Worked {
        name: "a row before a fault",
        kind: JoinKind::Inner,
        rest: Rest::BelowFive,
        left: &[[Some(2), Some(10)]],
        right: &[[Some(2), Some(3)], [Some(2), Some(0)]],
        alone: &[],
        rows: &[[Some(2), Some(10), Some(2), Some(3)]],
        end: Some(FaultKind::DivideByZero),
    },
    Worked {
        name: "a quotient behind its guard",
        kind: JoinKind::Inner,
        rest: Rest::Guarded,
        left: TENS,
        right: &[[Some(2), Some(0)], [Some(1), Some(2)], [Some(2), Some(3)]],
        alone: &[],
        rows: &[
            [Some(1), Some(10), Some(1), Some(2)],
            [Some(2), Some(10), Some(2), Some(3)],
        ],
        end: None,
    },
    Worked {
        name: "left rows alone behind a guard",
        kind: JoinKind::Outer,
        rest: Rest::Guarded,
        left: TENS,
        right: &[[Some(2), Some(0)], [Some(1), N], [Some(2), Some(30)]],
        alone: &[],
        rows: &[
            [Some(1), Some(10), N, N],
            [Some(2), Some(10), N, N],
            [N, N, Some(2), Some(0)],
            [N, N, Some(1), N],
            [N, N, Some(2), Some(30)],
        ],
        end: None,
    },
    Worked {
        name: "a fault of the second conjunct",
        kind: JoinKind::Left,
        rest: Rest::Both,
        left: &[[Some(1), Some(0)], [Some(2), Some(10)]],
        right: &[[Some(1), Some(0)], [Some(2), Some(3)], [Some(2), Some(0)]],
        alone: &[],
        rows: &[
            [Some(1), Some(0), N, N],
            [Some(2), Some(10), Some(2), Some(3)],
        ],
        end: Some(FaultKind::DivideByZero),
    },
    Worked {
        name: "a semi join up to its first partner",
        kind: JoinKind::LeftSemi,
        rest: Rest::Both,
        left: TENS,
        right: &[[Some(2), Some(3)], [Some(2), Some(0)]],
        alone: &[[Some(2), Some(10)]],
        rows: &[],
        end: None,
    },
];

/// The name of a worked join that gives other rows, or ends otherwise, than is written.
pub(crate) fn differing(alloc: Global) -> Result<Option<&'static str>, NoMemory> {
    for worked in &WORKED {
        if !is_as_written(alloc, worked)? {
            return Ok(Some(worked.name));
        }
    }
    Ok(None)
}

fn is_as_written(alloc: Global, worked: &Worked) -> Result<bool, NoMemory> {
    let left = batch_of_rows(alloc, worked.left)?;
    let right = batch_of_rows(alloc, worked.right)?;
    let condition = Condition {
        keyed: true,
        rest: worked.rest,
    };
    let spec = spec_of(alloc, worked.kind, condition)?;
    let table = table_of(alloc, spec, &right)?;
    let seen = by_table(alloc, worked.kind, &table, &left)?;
    let rows = rows_of(alloc, worked)?;
    Ok(seen.end == end_of(worked.end) && are_same(seen.rows.as_slice(), rows.as_slice()))
}

// The fault is the join's own.
fn end_of(kind: Option<FaultKind>) -> Option<Fault> {
    match kind {
        Some(kind) => Some(Fault {
            relation: RELATION,
            kind,
        }),
        None => None,
    }
}

// The rows that are written, of which one list is empty.
fn rows_of(alloc: Global, worked: &Worked) -> Result<Items<Items<Value>>, NoMemory> {
    let mut rows = Items::new(alloc);
    for row in worked.alone {
        rows.push(values_of(alloc, row)?)?;
    }
    for row in worked.rows {
        rows.push(values_of(alloc, row)?)?;
    }
    Ok(rows)
}

fn values_of(alloc: Global, row: &[Number]) -> Result<Items<Value>, NoMemory> {
    let mut values = Items::new(alloc);
    for number in row {
        values.push(value_of(*number))?;
    }
    Ok(values)
}
