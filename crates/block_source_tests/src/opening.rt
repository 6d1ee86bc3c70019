// Files in memory, opened.
ghost use Rattle.std.specs.Prelude.{◌≡◌, Ok, Some, IsSome, IsTrue, IfSome, OnOk, map, vec_len};
ghost use Rattle.std.proofs.Props.{props};
ghost use Rattle.arrow_meta.specs.Head.{head_of};
ghost use Rattle.arrow_read.specs.Known.{known_column};
ghost use Rattle.arrow_read.specs.Seen.{head_seen};
ghost use Rattle.block_source.specs.Seen.{AreHeads};

use arrow_meta::Shape;
use arrow_read::{FileHead, open_file};
use block_source::BlockFile;
use std::alloc::Global;
use sub_types::NoMemory;
use world::{Folder, MemFolder, MemReader};

/// Files and their readers, in one order.
#[derive(Drop)]
pub struct OpenFiles {
    pub files: Vec<BlockFile>,
    pub readers: Vec<MemReader>,
    pub ghost count: { vec_len readers ≡ vec_len files },
    pub ghost heads: { AreHeads files.items (map (λ reader. Some reader.bytes) readers.items) } by { Prim.hlevel props },
}

// Whether the first column exists and can be read.
fn is_readable(head: &FileHead) -> bool
    ensures { IsTrue result → IsSome (known_column head.now.schema.columns 0) }
{
    match head.schema.columns.fields().first() {
        Some(field) => match field.shape {
            Shape::Known { kind: _, layout: _ } => true,
            Shape::Skip { buffers: _ } => false,
        },
        None => false,
    }
}

// The first column of a file.
fn first_column(alloc: Global, head: FileHead) -> Option<BlockFile>
    ensures { IfSome result (λ file. head_seen file.head ≡ head_seen head) }
{
    if !is_readable(&head) {
        return None;
    }
    let mut wanted = Vec::new(alloc);
    wanted.push(0).ok()?;
    Some(BlockFile { head, wanted })
}

// The named file with its reader.
fn open_one(alloc: Global, folder: &mut MemFolder, name: &str) -> Option<(BlockFile, MemReader)>
    ensures { IfSome result (λ one. head_of one.1.bytes ≡ Ok (head_seen one.0.head)) }
{
    let Ok(Some(mut reader)) = folder.reader(alloc, name) else {
        return None;
    };
    let Ok(head) = open_file(alloc, &mut reader) else {
        return None;
    };
    let file = first_column(alloc, head)?;
    Some((file, reader))
}

// One file more, with its reader.
fn push_both(
    files: &mut Vec<BlockFile>,
    readers: &mut Vec<MemReader>,
    file: BlockFile,
    reader: MemReader,
) -> Result<(), NoMemory>
    requires count { vec_len readers.old ≡ vec_len files.old }
    requires heads { AreHeads files.old.items (map (λ reader. Some reader.bytes) readers.old.items) }
    requires head { head_of reader.bytes ≡ Ok (head_seen file.head) }
    ensures count { OnOk result (vec_len readers.new ≡ vec_len files.new) }
    ensures heads { OnOk result (AreHeads files.new.items (map (λ reader. Some reader.bytes) readers.new.items)) }
{
    files.reserve(1)?;
    readers.push(reader)?;
    files.push_reserved(file);
    Ok(())
}

/// The named files with their readers. None is where one isn't there, or isn't such a file.
pub fn open_files(alloc: Global, folder: &mut MemFolder, names: &[&str]) -> Option<OpenFiles> {
    let mut files = Vec::new(alloc);
    let mut readers = Vec::new(alloc);
    for name in names {
        let (file, reader) = open_one(alloc, folder, name)?;
        let Ok(()) = push_both(&mut files, &mut readers, file, reader) else {
            return None;
        };
    }
    Some(OpenFiles { files, readers })
}
