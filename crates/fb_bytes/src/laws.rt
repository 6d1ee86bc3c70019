// The laws of the layout, for crates that read back what they wrote: they hold for any objects, wherever
// these stand in other bytes.
ghost use Rattle.fb_bytes.specs.Laws.{RootReadsBack, TableReadsBack, TablesReadBack, ItemReadsBack, StructsReadBack, TextReadsBack, AbsenceReadsBack, LaidIsNear, LaidLengths};

/// What is laid out reads back: a root table, what a slot leads to, the elements of a vector of offsets,
/// and the slots that aren't there.
pub fn laid_reads_back()
    ensures root { RootReadsBack }
    ensures table { TableReadsBack }
    ensures tables { TablesReadBack }
    ensures item { ItemReadsBack }
    ensures structs { StructsReadBack }
    ensures text { TextReadsBack }
    ensures absence { AbsenceReadsBack }
{}

/// How long what is laid out is, and that an offset of 32 bits can lead to it.
pub fn laid_lengths()
    ensures near { LaidIsNear }
    ensures lengths { LaidLengths }
{}
