// One block of a table, read by the reader of its file.
ghost use Rattle.std.specs.Prelude.{◌≡◌, ◌<◌, ◌≤◌, ◌++◌, ◌∷◌, [], ℕ, List, Ok, Some, length, map, slice_get, sum_by, vec_len, IfOk, OnOk, OnErr};
ghost use Rattle.std.specs.Option.{option_map};
ghost use Rattle.world.specs.Counts.{Rose};
ghost use Rattle.arrow_meta.specs.Head.{head_of};
ghost use Rattle.arrow_read.specs.Told.{IfTold};
ghost use Rattle.arrow_read.specs.Seen.{head_seen};
ghost use Rattle.block_source.specs.Bodies.{body_read, AreReadFor};
ghost use Rattle.block_source.specs.Seen.{AreHeads, IsPlaceIn, GivesBlock, GivesAt};
ghost use Rattle.block_source.specs.Places.{places_of};

use crate::block::BlockRead;
use crate::file::{BlockFile, BlockPlace};
use arrow_read::{BlockError, read_block};
use std::alloc::Global;
use sub_types::NoMemory;
use world::Reader;

/// The block of a file at a place of its footer.
#[tactic(auto, unfolding(arrow_read::specs::BlockReads::reads_block))]
pub(crate) fn read_one<R: Reader>(
    alloc: Global,
    file: &BlockFile,
    reader: &mut R,
    block: u32,
) -> Result<BlockRead, NoMemory>
    requires exists { block < vec_len file.now.head.blocks }
    requires head { IfTold (R.bytes reader.old) (λ told. head_of told ≡ Ok (head_seen file.now.head)) }
    ensures given { IfOk result (GivesBlock file.now (R.bytes reader.old) block) }
    ensures never_falls { R.faults reader.old ≤ R.faults reader.new }
    ensures failed { result ≡ Ok BlockRead.Failed → Rose (R.faults reader.old) (R.faults reader.new) }
    ensures reads { OnOk result (R.reads reader.new ≡ option_map (λ told. told ++ body_read file.now.head block) (R.reads reader.old)) }
    ensures not_read { OnErr result (R.reads reader.new ≡ R.reads reader.old) }
    ensures bytes { R.bytes reader.new ≡ R.bytes reader.old }
{
    match read_block(alloc, reader, &file.head, block, &file.wanted) {
        Ok(raw) => Ok(BlockRead::Whole(raw)),
        Err(BlockError::BadBatch) => Ok(BlockRead::Bad),
        Err(BlockError::ReadFault) => Ok(BlockRead::Failed),
        Err(BlockError::NoMemory) => Err(NoMemory),
    }
}

/// The block at a place, by the reader of its file.
pub(crate) fn read_place<R: Reader>(
    alloc: Global,
    files: &[BlockFile],
    readers: &mut Vec<R>,
    place: BlockPlace,
) -> Result<BlockRead, NoMemory>
    requires count { vec_len readers.old ≡ length files.now }
    requires place { IsPlaceIn files.now place }
    requires heads { AreHeads files.now (map R.bytes readers.old.items) }
    ensures given { IfOk result (GivesAt files.now (map R.bytes readers.old.items) place) }
    ensures never_falls { sum_by R.faults readers.old.items ≤ sum_by R.faults readers.new.items }
    ensures failed { result ≡ Ok BlockRead.Failed → Rose (sum_by R.faults readers.old.items) (sum_by R.faults readers.new.items) }
    ensures reads { OnOk result ((loaded : List ℕ) (number : ℕ) → slice_get (places_of files.now) number ≡ Some place
        → AreReadFor files.now (map R.reads readers.old.items) loaded → AreReadFor files.now (map R.reads readers.new.items) (loaded ++ number ∷ [])) }
    ensures not_read { OnErr result (map R.reads readers.new.items ≡ map R.reads readers.old.items) }
    ensures bytes { map R.bytes readers.new.items ≡ map R.bytes readers.old.items }
    ensures len { vec_len readers.new ≡ vec_len readers.old }
{
    let index = place.file as usize;
    read_one(alloc, &files[index], &mut readers[index], place.block)
}
