// The blocks of a table as a source.
ghost use Rattle.std.specs.Prelude.{◌≡◌, [], map, vec_len, length};
ghost use Rattle.std.proofs.Props.{props};
ghost use Rattle.block_source.specs.Bodies.{AreReadFor};
ghost use Rattle.block_source.specs.Seen.{AreHeads};

use crate::block::BlockRead;
use crate::file::BlockFile;
use crate::read::read_place;
use crate::table::TableBlocks;
use pipe_labour::Source;
use std::alloc::Global;
use std::collections::LinkedList;
use sub_types::NoMemory;
use world::Reader;

/// What clauses on the blocks of a table speak of: its files, and their bytes where they are told. No value of it is
/// made.
#[derive(Drop)]
pub struct TableSeen {
    pub files: LinkedList<BlockFile>,
    pub bytes: LinkedList<Option<LinkedList<u8>>>,
}

/// One worker's readers of the files of a table, one each, and the numbers of the blocks that it read.
#[derive(Drop)]
pub struct BlockSource<'a, R: Reader> {
    pub table: &'a TableBlocks,
    pub readers: Vec<R>,
    pub loaded: Vec<u64>,
    pub ghost count: { vec_len readers ≡ vec_len table.now.files },
    pub ghost heads: { AreHeads table.now.files.items (map R.bytes readers.items) } by { Prim.hlevel props },
    pub ghost reads: { AreReadFor table.now.files.items (map R.reads readers.items) loaded.items } by { Prim.hlevel props },
}

impl<'a, R: Reader> Source for BlockSource<'a, R> {
    type Given = BlockRead;

    type About = TableSeen;

    ghost use Rattle.std.specs.Prelude.{◌≡◌, map, sum_by};
    ghost use Rattle.block_source.specs.Seen.{GivesNumber};
    ghost use Rattle.block_source.specs.declared.block.BlockRead.TheVariants as reads;

    ghost about = { λ s. record { files = s.table.now.files.items; bytes = map R.bytes s.readers.items } };

    ghost loaded = { λ s. s.loaded.items };

    ghost failures = { λ s. sum_by R.faults s.readers.items };

    ghost gives = { λ a number given. GivesNumber a.files a.bytes number given };

    ghost fails = { λ _ _ given. given ≡ reads.Failed };

    fn read(&mut self, alloc: Global, number: u64) -> Result<BlockRead, NoMemory> {
        self.loaded.reserve(1)?;
        let Some(place) = self.table.place(number) else {
            self.loaded.push_reserved(number);
            return Ok(BlockRead::Absent);
        };
        let given = read_place(alloc, &self.table.files, &mut self.readers, place)?;
        self.loaded.push_reserved(number);
        Ok(given)
    }
}
