// Files of one block each, by many workers.
use crate::opening::{OpenFiles, open_files};
use crate::run::count_rows;
use block_source::TableBlocks;
use round_end::Settled;
use std::alloc::Global;
use std::sync::Wait;
use std::thread;
use std::thread::Threads;
use sub_types::NoMemory;
use test_bytes::THREE_ROWS_FILE;
use world::{FolderError, Gate, MemFolder, MemReader, OpenGate};

// Where the body of the block of the file begins.
const BODY: u64 = 312;

#[derive(Drop)]
struct YieldingGate;

impl Gate for YieldingGate {
    fn before(&self, _worker: u32, _number: u64) {
        thread::yield_now();
    }
}

// A folder with the file under three names; reads of its block under one name may fail.
fn folder_of(alloc: Global, failing: Option<&str>) -> Result<MemFolder, NoMemory> {
    let mut folder = MemFolder::new(alloc);
    folder.put_file("a", &THREE_ROWS_FILE)?;
    folder.put_file("b", &THREE_ROWS_FILE)?;
    folder.put_file("c", &THREE_ROWS_FILE)?;
    if let Some(name) = failing {
        folder.fail_at(name, BODY)?;
    }
    Ok(folder)
}

// What the named files are counted to, and their readers.
fn count<H: Threads + Wait + Sync, G: Gate>(
    rt: &H,
    alloc: Global,
    folder: &mut MemFolder,
    names: &[&str],
    workers: u32,
    gate: &G,
) -> Option<(Result<Settled<u64>, FolderError>, Vec<MemReader>)> {
    let OpenFiles { files, mut readers } = open_files(alloc, folder, names)?;
    if files.len() > 1000 || workers < 1 || workers > 64 {
        return None;
    }
    let table = TableBlocks::new(alloc, files).ok()?;
    let counted = count_rows(rt, alloc, &table, &mut readers, workers, gate);
    Some((counted, readers))
}

// Whether each file was opened by five reads, and the body of its block was read once after these.
fn have_read_each_body(readers: &[MemReader]) -> bool {
    let asked = [
        (0, 6),
        (536, 10),
        (344, 192),
        (168, 8),
        (176, 136),
        (BODY, 24),
    ];
    for reader in readers {
        if reader.reads() != asked.as_slice() {
            return false;
        }
    }
    true
}

// Whether each of so many blocks has three rows.
fn are_three_each(made: &[u64], blocks: usize) -> bool {
    for rows in made {
        if *rows != 3 {
            return false;
        }
    }
    made.len() == blocks
}

// Whether one file that is bound so often is read once by each of its readers.
fn reads_each_body<H: Threads + Wait + Sync, G: Gate>(
    rt: &H,
    alloc: Global,
    names: &[&str],
    workers: u32,
    gate: &G,
) -> bool {
    let Ok(mut folder) = folder_of(alloc, None) else {
        return false;
    };
    let Some((counted, readers)) = count(rt, alloc, &mut folder, names, workers, gate) else {
        return false;
    };
    let Ok(settled) = counted else {
        return false;
    };
    are_three_each(&settled.made, names.len())
        && settled.end.is_none()
        && readers.len() == names.len()
        && have_read_each_body(&readers)
}

// Whether the failed read of the block of the file with this name is the answer.
fn fails_to_read<H: Threads + Wait + Sync>(
    rt: &H,
    alloc: Global,
    failing: &str,
    workers: u32,
) -> bool {
    let Ok(mut folder) = folder_of(alloc, Some(failing)) else {
        return false;
    };
    let names = ["a", "b", "c"];
    match count(rt, alloc, &mut folder, &names, workers, &OpenGate) {
        Some((counted, readers)) => {
            matches!(counted, Err(FolderError::Failed))
                && readers.len() == 3
                && have_read_each_body(&readers)
        }
        None => false,
    }
}

#[test]
fn each_of_three_readers_gains_the_body_of_its_block(rt: HostRuntime) {
    for workers in [1, 2, 64] {
        assert!(rt; reads_each_body(&rt, rt.alloc(), &["a", "a", "a"], workers, &OpenGate));
    }
}

#[test]
fn a_read_that_fails_at_each_block_in_turn(rt: HostRuntime) {
    for (failing, workers) in [("a", 1), ("b", 2), ("c", 3)] {
        assert!(rt; fails_to_read(&rt, rt.alloc(), failing, workers));
    }
}

#[test]
fn many_workers_over_a_thousand_blocks(rt: HostRuntime) {
    assert!(rt; reads_each_body(&rt, rt.alloc(), &["a"; 1000], 64, &YieldingGate));
}
