// What the readers of a run are asked for: the body of each block once, by whatever worker.
use super::answered::{put, run_words};
use super::plans::{BEHIND_FIRST_OF_T, X_OF_T};
use run_top::Status;
use std::alloc::Global;
use std::marker::Sync;
use std::sync::Wait;
use std::thread::Threads;
use test_bytes::THREE_ROWS_FILE;
use world::MemFolder;

// Where the body of the file's only block begins, and its length.
const BODY: (u64, u64) = (312, 24);

// How often the bodies of blocks were asked for.
fn bodies_in(reads: &[(u64, u64)]) -> usize {
    reads.iter().filter(|&&read| read == BODY).count()
}

// A folder with the file, a plan that is a read and nothing else, and one that goes by pipelines.
fn folder_of(alloc: Global) -> MemFolder {
    let mut folder = MemFolder::new(alloc);
    let _ = folder.put_file("g", &THREE_ROWS_FILE);
    put(alloc, &mut folder, "x", X_OF_T);
    put(alloc, &mut folder, "f", BEHIND_FIRST_OF_T);
    folder
}

// Whether a run over the file, bound three times, asks for its body three times.
fn reads_each_once<H: Threads + Wait + Sync>(
    rt: &H,
    alloc: Global,
    plan: &str,
    workers: &str,
) -> bool {
    let mut folder = folder_of(alloc);
    let words = ["run", plan, "o", workers, "t=g", "t=g", "t=g"];
    match run_words(rt, alloc, &mut folder, &words) {
        Ok(answered) => match answered.status {
            Status::Ok(_) => bodies_in(folder.reads()) == 3,
            _ => false,
        },
        Err(_) => false,
    }
}

#[test]
fn each_body_is_read_once(rt: HostRuntime) {
    for workers in ["1", "2", "64"] {
        assert!(rt; reads_each_once(&rt, rt.alloc(), "x", workers));
        assert!(rt; reads_each_once(&rt, rt.alloc(), "f", workers));
    }
}
