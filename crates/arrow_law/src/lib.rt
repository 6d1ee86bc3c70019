//! The law of written Arrow files: the table that such a file holds is what was written. It stands on `arrow_meta`,
//! whose definitions of a written file and of a file's table it ties together. It has no definition of its own.
#![tactic(auto)]

ghost use Rattle.arrow_meta.specs.Table.{TableReadsBack};

/// The table of a written Arrow file is what was written: its names, its types and its rows, where there
/// are as many names as types, each decimal has 1 to 38 digits, every row fits, and the footer has fewer
/// than 2^31 bytes and the file fewer than 2^63 (Arrow columnar format, "IPC File Format").
pub fn table_reads_back()
    ensures reads_back { TableReadsBack }
{}
