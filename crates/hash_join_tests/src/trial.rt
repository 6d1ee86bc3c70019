// One random join after another.
ghost use Rattle.std.specs.Prelude.{◌≡◌, ◌≤◌, length, IfOk};
ghost use Rattle.batch.specs.BatchRows.{types_of};
ghost use Rattle.hash_join_tests.specs.Typed.{IsOfNumbers, IsReady, numbers};

use crate::batches::{fitting, random_batch};
use crate::conditions::{Condition, RELATION, spec_of, whole};
use crate::random::Random;
use crate::rests::Rest;
use crate::rows::{are_same, push_rows};
use batch::{Batch, Piece};
use hash_join::{BuildPart, JoinTable, Marks};
use plan_leaves::Items;
use plan_typed::JoinKind;
use rel_specs::JoinSpec;
use row_joins::{Widths, joined};
use row_steps::{RowStream, Stream};
use std::alloc::Global;
use std::marker::Sync;
use sub_types::NoMemory;

// How many of so many random joins give what the row engine gives.
pub(crate) fn agreeing(alloc: Global, joins: u32) -> Result<u32, NoMemory> {
    let mut random = Random::new(11);
    let mut count: u32 = 0;
    for _ in 0..joins {
        let left = random_batch(alloc, &mut random)?;
        let right = random_batch(alloc, &mut random)?;
        let kind = kind_of(&mut random);
        let condition = condition_of(&mut random);
        if agrees(alloc, kind, condition, left, right)? {
            count = count.saturating_add(1);
        }
    }
    Ok(count)
}

fn kind_of(random: &mut Random) -> JoinKind {
    match random.below(6) {
        0 => JoinKind::Inner,
        1 => JoinKind::Outer,
        2 => JoinKind::Left,
        3 => JoinKind::Right,
        4 => JoinKind::LeftSemi,
        _ => JoinKind::LeftAnti,
    }
}

fn condition_of(random: &mut Random) -> Condition {
    let keyed = random.below(4) != 0;
    let rest = match random.below(5) {
        0 => Rest::None,
        1 => Rest::Less,
        2 => Rest::Quotient,
        3 => Rest::Guarded,
        _ => Rest::Both,
    };
    Condition { keyed, rest }
}

// Whether a join gives what the row engine gives.
fn agrees(
    alloc: Global,
    kind: JoinKind,
    condition: Condition,
    left: Batch,
    right: Batch,
) -> Result<bool, NoMemory>
    requires left { types_of left ≡ numbers }
    requires right { types_of right ≡ numbers }
{
    let expected = by_rows(alloc, kind, condition, &left, &right)?;
    let spec = spec_of(alloc, kind, condition)?;
    let table = table_of(alloc, spec, &right)?;
    shared(&table);
    let seen = by_table(alloc, kind, &table, &left)?;
    Ok(seen.end == expected.end && are_same(seen.rows.as_slice(), expected.rows.as_slice()))
}

// Several workers may probe one table.
fn shared<T: Sync>(_table: &T) {}

// The join by every pair of rows.
fn by_rows(
    alloc: Global,
    kind: JoinKind,
    condition: Condition,
    left: &Batch,
    right: &Batch,
) -> Result<RowStream, NoMemory> {
    let on = whole(alloc, condition)?;
    let mut lefts = Items::new(alloc);
    push_rows(alloc, left, &mut lefts)?;
    let mut rights = Items::new(alloc);
    push_rows(alloc, right, &mut rights)?;
    let widths = Widths { left: 2, right: 2 };
    joined(
        alloc,
        kind,
        RELATION,
        widths,
        &on,
        Stream {
            rows: lefts,
            end: None,
        },
        Stream {
            rows: rights,
            end: None,
        },
    )
}

// The table of the right rows in two parts.
pub(crate) fn table_of(alloc: Global, spec: JoinSpec, right: &Batch) -> Result<JoinTable, NoMemory>
    requires join { IsOfNumbers spec }
    requires types { types_of right.now ≡ numbers }
    ensures { IfOk result (λ table. IsReady table) }
{
    let half = right.rows / 2;
    let first = fitting(alloc, right, 0, half)?;
    let second = fitting(alloc, right, half, right.rows)?;
    let one = BuildPart::of(alloc, &spec, first)?;
    let two = BuildPart::of(alloc, &spec, second)?;
    let mut parts = Vec::new(alloc);
    parts.push(one)?;
    parts.push(two)?;
    let table = JoinTable::build(alloc, spec, parts)?;
    Ok(table)
}

// The join of the left rows in two pieces, with marks of their own.
pub(crate) fn by_table(
    alloc: Global,
    kind: JoinKind,
    table: &JoinTable,
    left: &Batch,
) -> Result<RowStream, NoMemory>
    requires table { IsReady table.now }
    requires types { types_of left.now ≡ numbers }
{
    let half = left.rows / 2;
    let mut marks = table.marks()?;
    let mut others = table.marks()?;
    let one = probed(alloc, table, left, 0, half, &mut marks)?;
    let two = probed(alloc, table, left, half, left.rows, &mut others)?;
    marks.merge(&others);
    let last = table.rest(alloc, &marks)?;
    glued(alloc, kind, one, two, &last)
}

// What the left rows from one to another give.
fn probed(
    alloc: Global,
    table: &JoinTable,
    left: &Batch,
    from: u64,
    to: u64,
    marks: &mut Marks,
) -> Result<Piece, NoMemory>
    requires table { IsReady table.now }
    requires types { types_of left.now ≡ numbers }
    requires rising { from ≤ to }
    requires within { to ≤ left.now.rows }
    requires marks { length marks.old ≡ length table.now.rows }
    ensures { length marks.new ≡ length marks.old }
{
    let batch = fitting(alloc, left, from, to)?;
    let piece = Piece { batch, end: None };
    table.probe(alloc, piece, marks)
}

// The pieces, and then what comes last, up to the first fault.
fn glued(
    alloc: Global,
    kind: JoinKind,
    one: Piece,
    two: Piece,
    last: &Batch,
) -> Result<RowStream, NoMemory> {
    let mut rows = Items::new(alloc);
    push_rows(alloc, &one.batch, &mut rows)?;
    if one.end.is_some() {
        return Ok(Stream { rows, end: one.end });
    }
    push_rows(alloc, &two.batch, &mut rows)?;
    if two.end.is_some() {
        return Ok(Stream { rows, end: two.end });
    }
    if matches!(kind, JoinKind::Right | JoinKind::Outer) {
        push_rows(alloc, last, &mut rows)?;
    }
    Ok(Stream { rows, end: None })
}
