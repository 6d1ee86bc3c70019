// Plans that are run over real files, and folders in the place of files.
use run_top::{command_main, exit_number};
use std::alloc::Global;
use std::fs;
use std::fs::File;
use std::marker::Sync;
use std::rt::Files;
use std::sync::Wait;
use std::thread::Threads;
use std_folder::StdFolder;
use sub_types::{NoMemory, Word};
use world::{MemNotes, OpenGate};

// One column x of whole numbers, with the rows 1, 2 and -1.
const PLAN: [u8; 53] = [
    0x1A, 0x33, 0x12, 0x31, 0x0A, 0x2C, 0x0A, 0x2A, 0x12, 0x0B, 0x0A, 0x01, 0x78, 0x12, 0x06, 0x0A,
    0x04, 0x3A, 0x02, 0x10, 0x02, 0x2A, 0x1B, 0x0A, 0x04, 0x0A, 0x02, 0x38, 0x01, 0x0A, 0x04, 0x0A,
    0x02, 0x38, 0x02, 0x0A, 0x0D, 0x0A, 0x0B, 0x38, 0xFF, 0xFF, 0xFF, 0xFF, 0xFF, 0xFF, 0xFF, 0xFF,
    0xFF, 0x01, 0x12, 0x01, 0x78,
];

// The column x of whole numbers of the table t.
const NAMED_PLAN: [u8; 29] = [
    0x1A, 0x1B, 0x12, 0x19, 0x0A, 0x14, 0x0A, 0x12, 0x12, 0x0B, 0x0A, 0x01, 0x78, 0x12, 0x06, 0x0A,
    0x04, 0x3A, 0x02, 0x10, 0x02, 0x3A, 0x03, 0x0A, 0x01, 0x74, 0x12, 0x01, 0x78,
];

// The number of the command's answer to these words.
fn number_after<H: Files<File = File> + Alloc<A = Global> + Threads + Wait + Sync>(
    rt: &H,
    texts: &[&str],
) -> Option<u8> {
    match words_of(rt.alloc(), texts) {
        Ok(words) => Some(answered(rt, &words)),
        Err(NoMemory) => None,
    }
}

fn answered<H: Files<File = File> + Alloc<A = Global> + Threads + Wait + Sync>(
    rt: &H,
    words: &[Word],
) -> u8 {
    let mut folder = StdFolder::new(rt);
    let mut notes = MemNotes::new(rt.alloc());
    let status = command_main(rt, rt.alloc(), words, &mut folder, &mut notes, &OpenGate);
    exit_number(&status)
}

fn words_of(alloc: Global, texts: &[&str]) -> Result<Vec<Word>, NoMemory> {
    let mut words = Vec::new(alloc);
    for text in texts {
        words.push(Word::of(alloc, text)?)?;
    }
    Ok(words)
}

fn puts(rt: &HostRuntime, name: &str, bytes: &[u8]) -> bool {
    fs::write(rt, name, bytes).is_ok()
}

// The bytes of the named file, or none.
fn bytes_of(rt: &HostRuntime, name: &str) -> Vec<u8> {
    match fs::read(rt, name) {
        Ok(bytes) => bytes,
        Err(_) => Vec::new(rt.alloc()),
    }
}

fn has_at(bytes: &[u8], from: usize, wanted: &[u8]) -> bool {
    match bytes.get(from..) {
        Some(rest) => rest.starts_with(wanted),
        None => false,
    }
}

fn first_false(seen: &[bool]) -> Option<usize> {
    seen.iter().position(|held| !*held)
}

#[test]
fn plan_over_real_files(rt: HostRuntime) {
    let put = puts(&rt, "written.plan", &PLAN);
    let number = number_after(&rt, &["run", "written.plan", "written.arrow", "2"]);
    let bytes = bytes_of(&rt, "written.arrow");
    let seen = [
        put,
        number == Some(0),
        bytes.len() == 546,
        has_at(&bytes, 0, b"ARROW1\0\0"),
        has_at(&bytes, 312, &[1, 0, 0, 0, 0, 0, 0, 0]),
        has_at(&bytes, 320, &[2, 0, 0, 0, 0, 0, 0, 0]),
        has_at(&bytes, 328, &[255, 255, 255, 255, 255, 255, 255, 255]),
        has_at(&bytes, 540, b"ARROW1"),
    ];
    assert_eq!(rt; first_false(&seen), None);
}

// A folder is no plain file, and no file is made in a folder that isn't there.
#[test]
fn folders_for_files(rt: HostRuntime) {
    assert!(rt; fs::create_dir(&rt, "folder").is_ok());
    assert!(rt; puts(&rt, "rows.plan", &PLAN));
    assert!(rt; puts(&rt, "named.plan", &NAMED_PLAN));
    let cases: [(&[&str], u8); 5] = [
        (&["run", "folder", "out.arrow", "1", "t=f"], 7),
        (&["run", "named.plan", "out.arrow", "1", "t=folder"], 7),
        (&["run", "named.plan", "out.arrow", "1", "t=no.arrow"], 5),
        (&["run", "rows.plan", "folder", "1", "t=f"], 8),
        (&["run", "rows.plan", "no_folder/out.arrow", "1", "t=f"], 8),
    ];
    for (words, number) in cases {
        assert_eq!(rt; number_after(&rt, words), Some(number));
    }
    assert!(rt; fs::read(&rt, "out.arrow").is_err());
}
