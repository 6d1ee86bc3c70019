// The blocks of a table, numbered.
ghost use Rattle.std.specs.Prelude.{◌≡◌, ◌+◌, ◌≤◌, ◌^◌, ◌++◌, IfOk, OnOk, slice_get, vec_len};
ghost use Rattle.block_source.specs.Places.{places_in, places_of};

use crate::file::{BlockFile, BlockPlace};
use std::alloc::Global;
use sub_types::NoMemory;

/// The files of a table and the places of their blocks: file by file, each from its first block to its last. The
/// blocks are numbered from 0 on in this order.
#[derive(Debug, Drop)]
pub struct TableBlocks {
    pub files: Vec<BlockFile>,
    pub places: Vec<BlockPlace>,
    pub ghost placed: { places.items ≡ places_of files.items },
    pub ghost few: { vec_len files ≤ 2 ^ 20 },
    pub ghost few_blocks: { vec_len places ≤ 2 ^ 62 },
}

impl TableBlocks {
    /// The blocks of these files.
    pub fn new(alloc: Global, files: Vec<BlockFile>) -> Result<TableBlocks, NoMemory>
        requires { vec_len files ≤ 2 ^ 20 }
        ensures { IfOk result (λ table. table.files.items ≡ files.items) }
    {
        let mut places = Vec::new(alloc);
        for (file, one) in files.iter().enumerate() {
            push_places(&mut places, file as u32, one.head.blocks.len() as u32)?;
        }
        Ok(TableBlocks { files, places })
    }

    /// The place of the block with this number, or `None` past the last.
    pub fn place(&self, number: u64) -> Option<BlockPlace>
        ensures { result ≡ slice_get (places_of self.now.files.items) number }
    {
        self.places.get(number as usize).copied()
    }
}

// Adds the places of so many blocks of a file.
fn push_places(places: &mut Vec<BlockPlace>, file: u32, blocks: u32) -> Result<(), NoMemory>
    ensures places { OnOk result (places.new.items ≡ places.old.items ++ places_in file blocks) }
    ensures len { OnOk result (vec_len places.new ≡ vec_len places.old + blocks) }
{
    for block in 0..blocks {
        places.push(BlockPlace { file, block })?;
    }
    Ok(())
}
