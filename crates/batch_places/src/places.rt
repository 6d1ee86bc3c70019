// Places of rows.
ghost use Rattle.std.specs.Prelude.{◌≡◌, ◌++◌, map, IfOk, OnOk};
ghost use Rattle.std.specs.List.{flat_map};
ghost use Rattle.batch.specs.BatchRows.{rows_of};
ghost use Rattle.batch_places.specs.Places.{is_there, row_there, AreThere, places_in};

use batch::Batch;
use std::alloc::Global;
use sub_types::NoMemory;

/// A row of one of several batches: the batch's place among them, and the row's place in it, both from 0.
#[derive(Clone, Copy, Debug, PartialEq, Eq)]
pub struct Place {
    pub run: usize,
    pub row: u64,
}

/// Whether a row is at a place.
pub fn is_row(runs: &[Batch], place: &Place) -> bool
    ensures { result ≡ is_there runs.now place.now }
{
    match runs.get(place.run) {
        Some(run) => place.row < run.rows,
        None => false,
    }
}

/// The places of the rows of all batches, batch after batch.
pub fn all_places(alloc: Global, runs: &[Batch]) -> Result<Vec<Place>, NoMemory>
    ensures rows { IfOk result (λ places. map (row_there runs.now) places.items ≡ flat_map rows_of runs.now) }
    ensures there { IfOk result (λ places. AreThere runs.now places.items) }
{
    let mut places = Vec::new(alloc);
    for run in 0..runs.len() {
        add_places(&mut places, run, runs[run].rows)?;
    }
    Ok(places)
}

// Adds the places of so many rows of a batch.
fn add_places(places: &mut Vec<Place>, run: usize, rows: u64) -> Result<(), NoMemory>
    ensures { OnOk result (places.new.items ≡ places.old.items ++ places_in run rows) }
{
    for row in 0..rows {
        places.push(Place { run, row })?;
    }
    Ok(())
}
