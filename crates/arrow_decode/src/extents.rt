// The buffers of a column of a record batch, as its metadata gives them.
ghost use Rattle.std.specs.Prelude.{◌≡◌, ◌⊎◌, ◌<◌, ◌≤◌, ◌^◌, length, map, take, drop, slice_index, slice_get, IfSome, OnSome};
ghost use Rattle.std.specs.List.{sum};
ghost use Rattle.std.specs.Option.{option_map};
ghost use Rattle.arrow_meta.specs.Batch as spec;
ghost use Rattle.sub_types.specs.OptionSteps.{all_of};
ghost use Rattle.arrow_decode.specs.Buffers.{buffers_seen};

use crate::buffer::buffer;
use arrow_meta::RecordMeta;

// The buffers of a column: its validity, and one or two more.
#[derive(Clone, Copy, Debug)]
pub(crate) struct Buffers<'a> {
    pub(crate) validity: &'a [u8],
    pub(crate) first: &'a [u8],
    pub(crate) second: Option<&'a [u8]>,
}

/// The number of rows, if there is a node for each column and as many buffers as the columns have.
#[tactic(auto, unfolding(arrow_meta::specs::Batch::count_in))]
pub(crate) fn row_count(shapes: &[u8], meta: &RecordMeta) -> Option<usize>
    ensures count { result ≡ spec.count_in shapes.now meta.now }
    ensures few { IfSome result (λ count. count < 2 ^ 31) }
    ensures nodes { OnSome result (length meta.now.nodes ≡ length shapes.now) }
    ensures buffers { OnSome result (length meta.now.buffers ≡ sum shapes.now) }
{
    if meta.length < 0 || meta.length >= 1 << 31 {
        return None;
    }
    if meta.nodes.pairs().len() != shapes.len() {
        return None;
    }
    if meta.buffers.pairs().len() as u128 != all_buffers(shapes) {
        return None;
    }
    Some(meta.length as usize)
}

fn all_buffers(shapes: &[u8]) -> u128
    ensures { result ≡ sum shapes.now }
{
    let mut all = 0;
    for shape in shapes {
        all += u128::from(*shape);
    }
    all
}

// How many buffers stand before those of a column.
fn buffers_before(shapes: &[u8], column: usize) -> usize
    requires exists { column ≤ length shapes.now }
    requires few { sum shapes.now < 2 ^ 64 }
    ensures { result ≡ sum (take column shapes.now) }
{
    let mut before = 0;
    for i in 0..column {
        before += shapes[i] as usize;
    }
    before
}

/// The buffers of a column, if its node counts as many values as there are rows and each lies in the body.
#[tactic(auto, unfolding(arrow_meta::specs::Batch::column_buffers))]
pub(crate) fn column_buffers<'a>(
    shapes: &[u8],
    meta: &RecordMeta,
    body: &'a [u8],
    count: usize,
    column: usize,
) -> Option<Buffers<'a>>
    requires exists { column < length shapes.now }
    requires nodes { length meta.now.nodes ≡ length shapes.now }
    requires buffers { length meta.now.buffers ≡ sum shapes.now }
    requires counted { (slice_index shapes.now column ≡ 2) ⊎ (slice_index shapes.now column ≡ 3) }
    requires few { count < 2 ^ 31 }
    ensures { option_map buffers_seen result ≡ spec.column_buffers shapes.now meta.now body.entry.now count column }
{
    if !is_counted(meta.nodes.pairs(), column, count) {
        return None;
    }
    buffers_of(body, extents(shapes, meta.buffers.pairs(), column))
}

// Whether the node of a column counts as many values as there are rows.
fn is_counted(nodes: &[(i64, i64)], column: usize, count: usize) -> bool
    requires exists { column < length nodes.now }
    requires few { count < 2 ^ 31 }
    ensures { result ≡ spec.is_counted count (slice_get nodes.now column) }
{
    let (values, _) = nodes[column];
    values == count as i64
}

// Where the buffers of a column lie.
fn extents<'a>(shapes: &[u8], all: &'a [(i64, i64)], column: usize) -> &'a [(i64, i64)]
    requires exists { column < length shapes.now }
    requires buffers { length all.now ≡ sum shapes.now }
    ensures extents { result.now ≡ take (slice_index shapes.now column) (drop (sum (take column shapes.now)) all.now) }
    ensures count { length result.now ≡ slice_index shapes.now column }
{
    let _size = all.len();
    let from = buffers_before(shapes, column);
    let count = shapes[column] as usize;
    let (_, rest) = all.split_at(from);
    let (extents, _) = rest.split_at(count);
    extents
}

// The two or three buffers at these places.
fn buffers_of<'a>(body: &'a [u8], extents: &[(i64, i64)]) -> Option<Buffers<'a>>
    requires { (length extents.now ≡ 2) ⊎ (length extents.now ≡ 3) }
    ensures { option_map buffers_seen result ≡ all_of (map (spec.buffer_in body.entry.now) extents.now) }
{
    let validity = buffer(body, &extents[0])?;
    let first = buffer(body, &extents[1])?;
    if extents.len() == 2 {
        return Some(Buffers {
            validity,
            first,
            second: None,
        });
    }
    let second = buffer(body, &extents[2])?;
    Some(Buffers {
        validity,
        first,
        second: Some(second),
    })
}
