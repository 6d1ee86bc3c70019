// The readers of the workers, made before they start.
ghost use Rattle.std.specs.Prelude.{◌≡◌, ◌≤◌, [], All, map, sum_by, vec_len, IfOk};
ghost use Rattle.world.specs.Counts.{HasCause};
ghost use Rattle.world.specs.Reads.{IsFresh};
ghost use Rattle.block_source.specs.Made.{IsUnused};
ghost use Rattle.block_source.specs.Seen.{AreHeads};

use crate::block::BlockRead;
use crate::source::BlockSource;
use crate::table::TableBlocks;
use pipe_labour::{PipeLabour, Work};
use std::alloc::Global;
use world::{FolderError, Reader};

// A second reader of each file.
fn readers_again<R: Reader>(alloc: Global, readers: &mut Vec<R>) -> Result<Vec<R>, FolderError>
    ensures same { IfOk result (λ seconds. map R.bytes seconds.items ≡ map R.bytes readers.old.items) }
    ensures fresh { IfOk result (λ seconds. All (λ second. IsFresh (R.faults second) (R.reads second)) seconds.items) }
    ensures bytes { map R.bytes readers.new.items ≡ map R.bytes readers.old.items }
    ensures reads { map R.reads readers.new.items ≡ map R.reads readers.old.items }
    ensures cause { HasCause FolderError.Failed (sum_by R.faults readers.old.items) (sum_by R.faults readers.new.items) result }
    ensures len { vec_len readers.new ≡ vec_len readers.old }
{
    let count = readers.len();
    let mut seconds = Vec::with_capacity(alloc, count)?;
    for index in 0..count {
        let second = readers[index].again(alloc)?;
        seconds.push_reserved(second);
    }
    Ok(seconds)
}

// A labour with readers of its own, which has read and made nothing yet.
fn labour_again<'a, R: Reader, W: Work<BlockRead> + Drop>(
    alloc: Global,
    table: &'a TableBlocks,
    readers: &mut Vec<R>,
    work: W,
) -> Result<PipeLabour<BlockSource<'a, R>, W, W::Made>, FolderError>
    requires count { vec_len readers.old ≡ vec_len table.now.files }
    requires heads { AreHeads table.now.files.items (map R.bytes readers.old.items) }
    ensures unused { IfOk result (λ l. IsUnused table.entry.now.files.items (map R.bytes readers.old.items)
        l.source.table.now.files.items (map R.bytes l.source.readers.items) l.source.loaded.items (sum_by R.faults l.source.readers.items) l.outs.items) }
    ensures work { IfOk result (λ l. l.work ≡ work) }
    ensures bytes { map R.bytes readers.new.items ≡ map R.bytes readers.old.items }
    ensures reads { map R.reads readers.new.items ≡ map R.reads readers.old.items }
    ensures cause { HasCause FolderError.Failed (sum_by R.faults readers.old.items) (sum_by R.faults readers.new.items) result }
    ensures len { vec_len readers.new ≡ vec_len readers.old }
{
    let seconds = readers_again(alloc, readers)?;
    let source = BlockSource {
        table,
        readers: seconds,
        loaded: Vec::new(alloc),
    };
    let labour = PipeLabour::new(alloc, source, work);
    Ok(labour)
}

/// So many labours, each with readers of its own.
pub(crate) fn labours_again<'a, R: Reader, W: Work<BlockRead> + Copy + Drop>(
    alloc: Global,
    table: &'a TableBlocks,
    readers: &mut Vec<R>,
    work: W,
    workers: u32,
) -> Result<Vec<PipeLabour<BlockSource<'a, R>, W, W::Made>>, FolderError>
    requires count { vec_len readers.old ≡ vec_len table.now.files }
    requires heads { AreHeads table.now.files.items (map R.bytes readers.old.items) }
    ensures workers { IfOk result (λ labours. vec_len labours ≡ workers) }
    ensures unused { IfOk result (λ labours. All (λ l. IsUnused table.entry.now.files.items (map R.bytes readers.old.items)
        l.source.table.now.files.items (map R.bytes l.source.readers.items) l.source.loaded.items (sum_by R.faults l.source.readers.items) l.outs.items) labours.items) }
    ensures work { IfOk result (λ labours. All (λ l. l.work ≡ work) labours.items) }
    ensures bytes { map R.bytes readers.new.items ≡ map R.bytes readers.old.items }
    ensures reads { map R.reads readers.new.items ≡ map R.reads readers.old.items }
    ensures cause { HasCause FolderError.Failed (sum_by R.faults readers.old.items) (sum_by R.faults readers.new.items) result }
    ensures len { vec_len readers.new ≡ vec_len readers.old }
{
    let mut labours = Vec::with_capacity(alloc, workers as usize)?;
    for _ in 0..workers {
        let labour = labour_again(alloc, table, readers, work)?;
        labours.push_reserved(labour);
    }
    Ok(labours)
}
