// The law of rows that are cut otherwise.
ghost use Rattle.run_top.specs.SameRows.{SameRowsSameFile};

/// A plan over tables of the same rows gives the same out file, however the rows are cut into files and record batches, whatever the
/// files' names, and on any number of workers.
pub fn same_rows_same_file()
    ensures { SameRowsSameFile }
{}
