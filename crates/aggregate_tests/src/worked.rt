// Worked aggregates: rows of a key and a number, what is asked of them, and the rows and the end that this gives. A letter stands as
// its code.
ghost use Rattle.std.specs.Prelude.{◌≤◌, length, All, IfOk};
ghost use Rattle.well_typed.specs.ExprTyped.{IsTypedOver};
ghost use Rattle.well_typed.specs.WellTyped.{IsMeasureOver, IsSetMeasureOver};
ghost use Rattle.aggregate.specs.States.{IsOver};
ghost use Rattle.group_sets.specs.States.{IsOver as AreSetsOver};
ghost use Rattle.aggregate_tests.specs.Typed.{numbers};

use crate::calls::{above, first, second, two};
use crate::measures::{count, over, rows, sum};
use crate::plans::RELATION;
use crate::rows::{Number, part_of, value_of};
use crate::trial::{by_parts, is_as, sets_by_parts};
use plan_leaves::Items;
use plan_typed::{Expr, SetMeasure, TypedMeasure};
use rel_specs::{AggSpec, SetSpec};
use row_steps::{RowStream, Stream};
use std::alloc::Global;
use sub_types::{Fault, FaultKind, NoMemory, Value};

const N: Number = None;

const MOST: Number = Some(9_223_372_036_854_775_807);

/// What is asked of the rows of a group.
#[derive(Clone, Copy)]
enum Asked {
    /// The sum of the numbers.
    Sum,
    /// How many numbers there are.
    Count,
    /// How many different numbers there are.
    CountDistinct,
    /// How many rows have a number above 2.
    CountAboveTwo,
}

struct Worked {
    name: &'static str,
    /// Whether the rows are grouped by their key.
    keyed: bool,
    asked: &'static [Asked],
    input: &'static [[Number; 2]],
    rows: &'static [&'static [Number]],
    end: Option<FaultKind>,
}

const WORKED: [Worked; 6] = [
    Worked {
        name: "a total that leaves its range on the way",
        keyed: false,
        asked: &[Asked::Sum, Asked::Count],
        input: &[[N, MOST], [N, Some(1)], [N, Some(-1)]],
        rows: &[&[MOST, Some(3)]],
        end: None,
    },
    Worked {
        name: "a total out of range",
        keyed: false,
        asked: &[Asked::Sum, Asked::Count],
        input: &[[N, MOST], [N, Some(1)]],
        rows: &[],
        end: Some(FaultKind::Overflow),
    },
    Worked {
        name: "nulls alone",
        keyed: false,
        asked: &[Asked::Sum, Asked::Count],
        input: &[[N, N], [N, N]],
        rows: &[&[N, Some(0)]],
        end: None,
    },
    Worked {
        name: "no rows",
        keyed: false,
        asked: &[Asked::Sum, Asked::Count],
        input: &[],
        rows: &[&[N, Some(0)]],
        end: None,
    },
    Worked {
        name: "counts with a filter",
        keyed: true,
        asked: &[Asked::Count, Asked::CountAboveTwo],
        input: &[[Some(97), Some(1)], [Some(97), N], [Some(98), Some(3)]],
        rows: &[&[Some(97), Some(1), Some(0)], &[Some(98), Some(1), Some(1)]],
        end: None,
    },
    Worked {
        name: "a total out of range in the second group",
        keyed: true,
        asked: &[Asked::Sum],
        input: &[[Some(98), Some(1)], [Some(97), MOST], [Some(97), Some(1)]],
        rows: &[&[Some(98), Some(1)]],
        end: Some(FaultKind::Overflow),
    },
];

/// The same over the key's group and over no group.
const WORKED_SETS: [Worked; 2] = [
    Worked {
        name: "two sets with distinct numbers",
        keyed: true,
        asked: &[Asked::Sum, Asked::CountDistinct],
        input: &[
            [Some(97), Some(1)],
            [Some(97), Some(1)],
            [Some(98), Some(2)],
        ],
        rows: &[
            &[Some(97), Some(2), Some(1), Some(0)],
            &[Some(98), Some(2), Some(1), Some(0)],
            &[N, Some(4), Some(2), Some(1)],
        ],
        end: None,
    },
    Worked {
        name: "two sets over no rows",
        keyed: true,
        asked: &[Asked::Sum, Asked::CountDistinct],
        input: &[],
        rows: &[&[N, N, Some(0), Some(1)]],
        end: None,
    },
];

/// The name of a worked aggregate that gives other rows, or ends otherwise, than is written.
pub(crate) fn differing(alloc: Global) -> Result<Option<&'static str>, NoMemory> {
    for worked in &WORKED {
        if !is_as_written(alloc, worked)? {
            return Ok(Some(worked.name));
        }
    }
    Ok(None)
}

/// The same of those over two sets of groups.
pub(crate) fn differing_sets(alloc: Global) -> Result<Option<&'static str>, NoMemory> {
    for worked in &WORKED_SETS {
        if !are_as_written(alloc, worked)? {
            return Ok(Some(worked.name));
        }
    }
    Ok(None)
}

fn is_as_written(alloc: Global, worked: &Worked) -> Result<bool, NoMemory> {
    let spec = spec_of(alloc, worked)?;
    let part = part_of(alloc, worked.input)?;
    let found = by_parts(alloc, &spec, &[part], 0)?;
    let expected = written(alloc, worked)?;
    is_as(alloc, &found, &expected)
}

fn are_as_written(alloc: Global, worked: &Worked) -> Result<bool, NoMemory> {
    let spec = sets_of(alloc, worked)?;
    let part = part_of(alloc, worked.input)?;
    let found = sets_by_parts(alloc, &spec, &[part], 1)?;
    let expected = written(alloc, worked)?;
    is_as(alloc, &found, &expected)
}

// The rows and the end that are written. The fault is the aggregate's own.
fn written(alloc: Global, worked: &Worked) -> Result<RowStream, NoMemory> {
    let mut rows = Items::new(alloc);
    for row in worked.rows {
        rows.push(values_of(alloc, row)?)?;
    }
    let end = match worked.end {
        Some(kind) => Some(Fault {
            relation: RELATION,
            kind,
        }),
        None => None,
    };
    Ok(Stream { rows, end })
}

fn values_of(alloc: Global, row: &[Number]) -> Result<Items<Value>, NoMemory> {
    let mut values = Items::new(alloc);
    for number in row {
        values.push(value_of(*number))?;
    }
    Ok(values)
}

fn groups_of(alloc: Global, keyed: bool) -> Result<Vec<Expr>, NoMemory>
    ensures { IfOk result (λ groups. All (IsTypedOver numbers) groups.items) }
{
    let mut groups = Vec::new(alloc);
    if keyed {
        groups.push(first())?;
    }
    Ok(groups)
}

fn spec_of(alloc: Global, worked: &Worked) -> Result<AggSpec, NoMemory>
    ensures { IfOk result (IsOver numbers) }
{
    let groups = groups_of(alloc, worked.keyed)?;
    let measures = measures_of(alloc, worked.asked)?;
    Ok(AggSpec {
        groups,
        measures,
        relation: RELATION,
    })
}

fn measures_of(alloc: Global, all: &[Asked]) -> Result<Vec<TypedMeasure>, NoMemory>
    ensures { IfOk result (λ measures. All (IsMeasureOver numbers) measures.items) }
{
    let mut measures = Vec::new(alloc);
    for asked in all {
        let measure = measure_asked(alloc, *asked)?;
        measures.push(measure)?;
    }
    Ok(measures)
}

// The sets are the one with all groups and the one without any.
fn sets_of(alloc: Global, worked: &Worked) -> Result<SetSpec, NoMemory>
    ensures { IfOk result (AreSetsOver numbers) }
{
    let groups = groups_of(alloc, worked.keyed)?;
    let sets = two_sets(alloc)?;
    let measures = set_measures_of(alloc, worked.asked)?;
    Ok(SetSpec {
        groups,
        sets,
        measures,
        relation: RELATION,
    })
}

fn two_sets(alloc: Global) -> Result<Vec<Vec<u32>>, NoMemory>
    ensures { IfOk result (λ sets. length sets.items ≤ 3) }
{
    let mut first = Vec::new(alloc);
    first.push(0)?;
    let mut sets = Vec::new(alloc);
    sets.push(first)?;
    sets.push(Vec::new(alloc))?;
    Ok(sets)
}

fn set_measures_of(alloc: Global, all: &[Asked]) -> Result<Vec<SetMeasure>, NoMemory>
    ensures { IfOk result (λ measures. All (IsSetMeasureOver numbers) measures.items) }
{
    let mut measures = Vec::new(alloc);
    for asked in all {
        let measure = measure_asked(alloc, *asked)?;
        let distinct = matches!(asked, Asked::CountDistinct);
        measures.push(over(measure, distinct))?;
    }
    Ok(measures)
}

fn measure_asked(alloc: Global, asked: Asked) -> Result<TypedMeasure, NoMemory>
    ensures { IfOk result (IsMeasureOver numbers) }
{
    match asked {
        Asked::Sum => Ok(sum(second(), None)),
        Asked::Count | Asked::CountDistinct => Ok(count(second(), None)),
        Asked::CountAboveTwo => {
            let filter = above(alloc, second(), two())?;
            Ok(rows(Some(filter)))
        }
    }
}
