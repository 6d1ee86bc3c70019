// What a command answered, without clauses, so that a test's proof has no more to do with it.
use hex::{FromHexError, decode};
use run_top::{Status, run_main};
use std::alloc::Global;
use std::marker::Sync;
use std::sync::Wait;
use std::thread::Threads;
use sub_types::{NoMemory, Word};
use world::{Gate, MemFolder, MemNotes, OpenGate};

#[derive(Drop)]
pub(super) struct Answered {
    pub(super) status: Status,
    pub(super) line: Vec<u8>,
}

// Runs the words over the folder.
pub(super) fn run_words<H: Threads + Wait + Sync>(
    rt: &H,
    alloc: Global,
    folder: &mut MemFolder,
    texts: &[&str],
) -> Result<Answered, NoMemory> {
    run_words_at(rt, alloc, folder, texts, &OpenGate)
}

// The same, with a gate before each batch.
pub(super) fn run_words_at<H: Threads + Wait + Sync, G: Gate>(
    rt: &H,
    alloc: Global,
    folder: &mut MemFolder,
    texts: &[&str],
    gate: &G,
) -> Result<Answered, NoMemory> {
    let mut words = Vec::new(alloc);
    for text in texts {
        words.push(Word::of(alloc, text)?)?;
    }
    let mut notes = MemNotes::new(alloc);
    let status = run_main(rt, alloc, &words, folder, &mut notes, gate);
    Ok(Answered {
        status,
        line: notes.text().to_vec(alloc)?,
    })
}

// Sets a file, written in digits. It isn't there where no memory was found.
pub(super) fn put(alloc: Global, folder: &mut MemFolder, name: &str, digits: &str) {
    put_repeated(alloc, folder, name, ("", digits, ""), 1);
}

// Sets a file: a head, so many times a piece, and a tail, all written in digits.
pub(super) fn put_repeated(
    alloc: Global,
    folder: &mut MemFolder,
    name: &str,
    parts: (&str, &str, &str),
    count: u32,
) {
    if let Ok(bytes) = repeated(alloc, parts, count) {
        let _ = folder.put_file(name, &bytes);
    }
}

fn repeated(alloc: Global, parts: (&str, &str, &str), count: u32) -> Result<Vec<u8>, FromHexError> {
    let mut bytes = decode(alloc, parts.0)?;
    let piece = decode(alloc, parts.1)?;
    for _ in 0..count {
        bytes
            .extend_from_slice(&piece)
            .map_err(|_| FromHexError::OutOfMemory)?;
    }
    let tail = decode(alloc, parts.2)?;
    bytes
        .extend_from_slice(&tail)
        .map_err(|_| FromHexError::OutOfMemory)?;
    Ok(bytes)
}
