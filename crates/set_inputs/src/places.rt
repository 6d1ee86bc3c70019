// The places of a set's columns.
ghost use Rattle.std.specs.Prelude.{◌≡◌, ◌==◌, ◌∷◌, IfOk};
ghost use Rattle.std.specs.List.{list_any};
ghost use Rattle.set_inputs.specs.Inputs as spec;

use std::alloc::Global;
use sub_types::NoMemory;

/// A column's place, unless there are more columns than memory holds.
fn as_column(place: usize) -> Result<u32, NoMemory>
    ensures { IfOk result (λ column. column ≡ place) }
{
    let Ok(column) = u32::try_from(place) else {
        return Err(NoMemory);
    };
    Ok(column)
}

/// Whether a place is one of a set's.
fn has(set: &[u32], place: usize) -> bool
    ensures { result ≡ list_any (λ one. one == place) set.now }
{
    set.iter().any(|one| *one as usize == place)
}

fn column_over(nulls: usize, set: &[u32], place: usize) -> usize
    ensures { result ≡ spec.column_over nulls set.now place }
{
    if has(set, place) { place } else { nulls }
}

/// The columns of a set's keys, where there are so many groups, and the column of nulls has this place.
pub fn columns_over(
    alloc: Global,
    nulls: usize,
    width: usize,
    set: &[u32],
) -> Result<Vec<u32>, NoMemory>
    ensures { IfOk result (λ columns. columns.items ≡ spec.columns_over nulls width set.now) }
{
    let mut columns = Vec::new(alloc);
    for place in 0..width {
        let column = as_column(column_over(nulls, set, place))?;
        columns.push(column)?;
    }
    Ok(columns)
}

/// A column, and others behind it.
pub fn with_first(alloc: Global, first: usize, columns: &[u32]) -> Result<Vec<u32>, NoMemory>
    ensures { IfOk result (λ all. all.items ≡ first ∷ columns.now) }
{
    let first = as_column(first)?;
    let mut all = Vec::with_capacity(alloc, columns.len())?;
    all.push(first)?;
    all.extend_from_slice(columns)?;
    Ok(all)
}
