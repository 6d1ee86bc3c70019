// The readers of the workers, absorbed once they have ended.
ghost use Rattle.std.specs.Prelude.{◌≡◌, ◌<◌, ◌≤◌, ◌++◌, ◌∷◌, [], ℕ, List, Option, true, All, map, sum_by, slice_set, vec_len, OnOk};
ghost use Rattle.world.specs.Counts.{Rose};
ghost use Rattle.world.specs.Reads.{Reads, joined_reads};
ghost use Rattle.block_source.specs.Absorbed.{AreJoined, IsRaised};
ghost use Rattle.block_source.specs.Bodies.{reading};
ghost use Rattle.block_source.specs.Told.{told_of, AreGained};

use crate::source::BlockSource;
use crate::table::TableBlocks;
use pipe_labour::PipeLabour;
use std::alloc::Global;
use sub_types::NoMemory;
use world::Reader;

// The faults and the reads of a second reader go to the reader of the file at this place. It answers whether all
// reads were absorbed so far.
fn absorb_one<R: Reader>(
    alloc: Global,
    readers: &mut Vec<R>,
    file: usize,
    second: R,
    complete: bool,
) -> bool
    requires { file < vec_len readers.old }
    ensures before { result ≡ true → complete ≡ true }
    ensures reads { result ≡ true → map R.reads readers.new.items
        ≡ slice_set (map R.reads readers.old.items) file (joined_reads (told_of (map R.reads readers.old.items) file) (R.reads second)) }
    ensures never_falls { sum_by R.faults readers.old.items ≤ sum_by R.faults readers.new.items }
    ensures faults { 0 < R.faults second → Rose (sum_by R.faults readers.old.items) (sum_by R.faults readers.new.items) }
    ensures bytes { map R.bytes readers.new.items ≡ map R.bytes readers.old.items }
    ensures count { vec_len readers.new ≡ vec_len readers.old }
{
    let absorbed = readers[file].absorb(alloc, second);
    let done = absorbed.is_ok();
    complete && done
}

// The faults and the reads of each second reader go to the reader of the same file, also where no memory was found
// for the reads of another.
fn absorb_readers<R: Reader>(
    alloc: Global,
    readers: &mut Vec<R>,
    mut seconds: Vec<R>,
    complete: bool,
) -> bool
    requires { vec_len seconds ≡ vec_len readers.old }
    ensures before { result ≡ true → complete ≡ true }
    ensures reads { result ≡ true → AreJoined (map R.reads readers.old.items) (map R.reads seconds.items) (map R.reads readers.new.items) 0 }
    ensures faults { IsRaised (sum_by R.faults readers.old.items) (sum_by R.faults readers.new.items) 0 (sum_by R.faults seconds.items) }
    ensures bytes { map R.bytes readers.new.items ≡ map R.bytes readers.old.items }
    ensures count { vec_len readers.new ≡ vec_len readers.old }
{
    let mut complete = complete;
    while let Some(second) = seconds.pop() {
        let file = seconds.len();
        complete = absorb_one(alloc, readers, file, second, complete);
    }
    complete
}

// The readers of one labour are absorbed.
fn absorb_labour<'a, R: Reader, W: Drop, M: Drop>(
    alloc: Global,
    table: &TableBlocks,
    readers: &mut Vec<R>,
    labour: PipeLabour<BlockSource<'a, R>, W, M>,
    complete: bool,
) -> bool
    requires count { vec_len readers.old ≡ vec_len table.now.files }
    requires table { labour.source.table.now.files.items ≡ table.now.files.items }
    ensures before { result ≡ true → complete ≡ true }
    ensures reads { result ≡ true → (start : List (Option Reads)) (left more all : List (List ℕ)) → more ≡ left ++ labour.entry.source.loaded.items ∷ []
        → AreGained (reading table.now.files.items) start (map R.reads readers.old.items) more all
        → AreGained (reading table.now.files.items) start (map R.reads readers.new.items) left all }
    ensures faults { IsRaised (sum_by R.faults readers.old.items) (sum_by R.faults readers.new.items) 0 (sum_by R.faults labour.entry.source.readers.items) }
    ensures bytes { map R.bytes readers.new.items ≡ map R.bytes readers.old.items }
    ensures count { vec_len readers.new ≡ vec_len readers.old }
{
    let PipeLabour {
        source,
        work: _,
        outs: _,
    } = labour;
    let BlockSource {
        table: _,
        readers: seconds,
        loaded: _,
    } = source;
    absorb_readers(alloc, readers, seconds, complete)
}

/// The faults and the reads of all labours' readers go to the readers of the files, also where no memory was found
/// for some of the reads.
pub(crate) fn absorb_labours<'a, R: Reader, W: Drop, M: Drop>(
    alloc: Global,
    table: &TableBlocks,
    readers: &mut Vec<R>,
    mut labours: Vec<PipeLabour<BlockSource<'a, R>, W, M>>,
) -> Result<(), NoMemory>
    requires count { vec_len readers.old ≡ vec_len table.now.files }
    requires tables { All (λ l. l.source.table.now.files.items ≡ table.now.files.items) labours.items }
    ensures reads { OnOk result (AreGained (reading table.now.files.items) (map R.reads readers.old.items) (map R.reads readers.new.items)
        [] (map (λ l. l.source.loaded.items) labours.entry.items)) }
    ensures faults { IsRaised (sum_by R.faults readers.old.items) (sum_by R.faults readers.new.items) 0 (sum_by (λ l. sum_by R.faults l.source.readers.items) labours.entry.items) }
    ensures bytes { map R.bytes readers.new.items ≡ map R.bytes readers.old.items }
{
    let mut complete = true;
    while let Some(labour) = labours.pop() {
        complete = absorb_labour(alloc, table, readers, labour, complete);
    }
    if complete { Ok(()) } else { Err(NoMemory) }
}
