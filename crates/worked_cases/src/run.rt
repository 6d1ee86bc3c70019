// Runs a case over folders in memory, and compares what comes with what is expected.
use crate::case::{Case, Failure, NamedFile};
use crate::each;
use crate::folder::CountingFolder;
use run_top::{command_main, exit_number};
use std::alloc::Global;
use std::marker::Sync;
use std::sync::Wait;
use std::thread::Threads;
use sub_types::{NoMemory, Word};
use world::{MemFolder, MemNotes, OpenGate};

/// One of the runs of a case.
#[derive(Clone, Copy)]
pub(crate) struct Variant<'a> {
    /// What stands in the place of the number of workers.
    pub(crate) workers: Option<&'a str>,
    /// The file in whose place a prefix of it stands, and the length of that.
    pub(crate) prefix: Option<(&'a str, usize)>,
}

/// A run that differs from what is expected of it.
#[derive(Drop)]
pub(crate) struct Differing<'a> {
    pub(crate) variant: Variant<'a>,
    /// The one call that fails in it, where each of a case's calls fails in turn.
    pub(crate) failure: Option<Failure>,
    /// Whether it is the run that follows the one with failures.
    pub(crate) is_second: bool,
    pub(crate) differences: Vec<Difference>,
}

/// What came in place of what was expected.
#[derive(Drop)]
pub(crate) enum Difference {
    /// What was said.
    Text {
        came: Vec<u8>,
        expected: Vec<u8>,
    },
    /// The number that the program ends with.
    Number {
        came: u8,
        expected: u8,
    },
    /// A file that shouldn't be there, and its length.
    Extra {
        name: String,
        came: usize,
    },
    /// A file that should be there, and its length.
    Missing {
        name: String,
        expected: usize,
    },
    /// A file with other bytes from a place on, and its lengths.
    Bytes {
        name: String,
        place: usize,
        came: usize,
        expected: usize,
    },
    /// Not as many readers were given back as were given.
    Readers {
        given: u64,
        returned: u64,
    },
}

// What was said, the number at the end, and what was left: of a run, or expected of one.
#[derive(Drop)]
pub(crate) struct Outcome {
    pub(crate) text: Vec<u8>,
    pub(crate) number: u8,
    pub(crate) folder: CountingFolder,
}

/// The first run of the case that differs, or `None`.
pub(crate) fn first_differing<'a, H: Threads + Wait + Sync>(
    rt: &H,
    alloc: Global,
    case: &'a Case,
) -> Result<Option<Differing<'a>>, NoMemory> {
    for variant in variants_of(alloc, case)?.iter() {
        if let Some(differing) = differing_in(rt, alloc, case, *variant)? {
            return Ok(Some(differing));
        }
        if let Some(differing) = each::first_differing(rt, alloc, case, *variant)? {
            return Ok(Some(differing));
        }
    }
    Ok(None)
}

// The runs of a case: with each number of workers, over each prefix.
fn variants_of<'a>(alloc: Global, case: &'a Case) -> Result<Vec<Variant<'a>>, NoMemory> {
    let mut variants = Vec::new(alloc);
    if case.workers.is_empty() {
        push_prefixes(&mut variants, case, None)?;
    }
    for word in case.workers.iter() {
        push_prefixes(&mut variants, case, Some(word.text()))?;
    }
    Ok(variants)
}

// The runs with one number of workers.
fn push_prefixes<'a>(
    variants: &mut Vec<Variant<'a>>,
    case: &'a Case,
    workers: Option<&'a str>,
) -> Result<(), NoMemory> {
    let Some(prefixes) = &case.prefixes else {
        let prefix = None;
        return Ok(variants.push(Variant { workers, prefix })?);
    };
    let name = prefixes.name.as_str();
    for length in prefixes.shortest..case.length_of(name) {
        let prefix = Some((name, length));
        variants.push(Variant { workers, prefix })?;
    }
    Ok(())
}

// One run of a case, where it or the one that follows its failures differs.
fn differing_in<'a, H: Threads + Wait + Sync>(
    rt: &H,
    alloc: Global,
    case: &'a Case,
    variant: Variant<'a>,
) -> Result<Option<Differing<'a>>, NoMemory> {
    let words = words_of(alloc, case, variant)?;
    let outcome = first_outcome(rt, alloc, case, variant, &words)?;
    let differences = first_differences(alloc, case, variant, &outcome)?;
    if !differences.is_empty() || case.failures.is_empty() {
        return Ok(where_any(variant, false, differences));
    }
    let differences = second_differences(rt, alloc, case, variant, &words, outcome.folder)?;
    Ok(where_any(variant, true, differences))
}

// What comes of a run with the case's failures.
fn first_outcome<H: Threads + Wait + Sync>(
    rt: &H,
    alloc: Global,
    case: &Case,
    variant: Variant<'_>,
    words: &[Word],
) -> Result<Outcome, NoMemory> {
    let mut folder = start_folder(alloc, case, variant)?;
    plan_failures(&mut folder.inner, &case.failures)?;
    run_words(rt, alloc, words, folder)
}

// Where it isn't what the case expects.
fn first_differences(
    alloc: Global,
    case: &Case,
    variant: Variant<'_>,
    outcome: &Outcome,
) -> Result<Vec<Difference>, NoMemory> {
    let expected = expected_of(alloc, case, variant)?;
    differences_of(alloc, outcome, &expected)
}

// Where a run without failures over the folder that is left isn't as one over the case's files.
fn second_differences<H: Threads + Wait + Sync>(
    rt: &H,
    alloc: Global,
    case: &Case,
    variant: Variant<'_>,
    words: &[Word],
    folder: CountingFolder,
) -> Result<Vec<Difference>, NoMemory> {
    let mut folder = folder;
    folder.inner.clear();
    let outcome = run_words(rt, alloc, words, folder)?;
    let expected = run_words(rt, alloc, words, start_folder(alloc, case, variant)?)?;
    differences_of(alloc, &outcome, &expected)
}

// A run that differs, where there are differences.
fn where_any(
    variant: Variant<'_>,
    is_second: bool,
    differences: Vec<Difference>,
) -> Option<Differing<'_>> {
    if differences.is_empty() {
        return None;
    }
    Some(Differing {
        variant,
        failure: None,
        is_second,
        differences,
    })
}

// The words of a run.
pub(crate) fn words_of(
    alloc: Global,
    case: &Case,
    variant: Variant<'_>,
) -> Result<Vec<Word>, NoMemory> {
    let workers_place = case.workers_place();
    let mut words = Vec::new(alloc);
    for (place, word) in case.words.iter().enumerate() {
        words.push(match variant.workers {
            Some(workers) if workers_place == Some(place) => Word::of(alloc, workers)?,
            _ => word.copy()?,
        })?;
    }
    Ok(words)
}

// The folder at the start of a run.
pub(crate) fn start_folder(
    alloc: Global,
    case: &Case,
    variant: Variant<'_>,
) -> Result<CountingFolder, NoMemory> {
    let mut folder = CountingFolder::new(alloc);
    for file in case.files.iter() {
        folder.put_file(file.name.as_str(), bytes_in(file, variant))?;
    }
    Ok(folder)
}

// The bytes of a file in a run: a prefix of them where it is wanted.
fn bytes_in<'a>(file: &'a NamedFile, variant: Variant<'_>) -> &'a [u8] {
    match variant.prefix {
        Some((name, length)) if file.name.as_str() == name => {
            file.bytes.get(..length).unwrap_or(&file.bytes)
        }
        _ => &file.bytes,
    }
}

// What is expected of a run.
pub(crate) fn expected_of(
    alloc: Global,
    case: &Case,
    variant: Variant<'_>,
) -> Result<Outcome, NoMemory> {
    let mut folder = start_folder(alloc, case, variant)?;
    for out in case.outs.iter() {
        folder.put_file(out.name.as_str(), &out.bytes)?;
    }
    Ok(Outcome {
        text: case.text.clone()?,
        number: case.status,
        folder,
    })
}

fn plan_failures(folder: &mut MemFolder, failures: &[Failure]) -> Result<(), NoMemory> {
    for failure in failures.iter() {
        plan_failure(folder, failure)?;
    }
    Ok(())
}

pub(crate) fn plan_failure(folder: &mut MemFolder, failure: &Failure) -> Result<(), NoMemory> {
    match failure {
        Failure::Open { name } => folder.fail_open(name.as_str()),
        Failure::Len { name } => folder.fail_len(name.as_str()),
        Failure::Read { name, index } => folder.fail_read(name.as_str(), *index),
        Failure::At { name, place } => folder.fail_at(name.as_str(), *place),
        Failure::Again { name, index } => folder.fail_again(name.as_str(), *index),
        Failure::Create => {
            folder.fail_create();
            Ok(())
        }
        Failure::Append { index, kept } => folder.fail_append(*index, *kept),
    }
}

// Runs the words over the folder.
pub(crate) fn run_words<H: Threads + Wait + Sync>(
    rt: &H,
    alloc: Global,
    words: &[Word],
    folder: CountingFolder,
) -> Result<Outcome, NoMemory> {
    let mut folder = folder;
    let mut notes = MemNotes::new(alloc);
    let status = command_main(rt, alloc, words, &mut folder, &mut notes, &OpenGate);
    Ok(Outcome {
        text: notes.text().to_vec(alloc)?,
        number: exit_number(&status),
        folder,
    })
}

// Where an outcome isn't the expected one.
pub(crate) fn differences_of(
    alloc: Global,
    outcome: &Outcome,
    expected: &Outcome,
) -> Result<Vec<Difference>, NoMemory> {
    let mut differences = Vec::new(alloc);
    if outcome.text.as_slice() != expected.text.as_slice() {
        differences.push(text_difference(outcome, expected)?)?;
    }
    if outcome.number != expected.number {
        differences.push(Difference::Number {
            came: outcome.number,
            expected: expected.number,
        })?;
    }
    push_files(alloc, &mut differences, &outcome.folder, &expected.folder)?;
    if outcome.folder.given != outcome.folder.returned {
        differences.push(Difference::Readers {
            given: outcome.folder.given,
            returned: outcome.folder.returned,
        })?;
    }
    Ok(differences)
}

fn text_difference(outcome: &Outcome, expected: &Outcome) -> Result<Difference, NoMemory> {
    let came = outcome.text.clone()?;
    Ok(Difference::Text {
        came,
        expected: expected.text.clone()?,
    })
}

// The files that aren't as expected, each name once.
fn push_files(
    alloc: Global,
    differences: &mut Vec<Difference>,
    folder: &CountingFolder,
    expected: &CountingFolder,
) -> Result<(), NoMemory> {
    for name in expected.names.iter() {
        push_file(alloc, differences, folder, expected, name.as_str())?;
    }
    for name in folder.names.iter() {
        if !expected.has_name(name.as_str()) {
            push_file(alloc, differences, folder, expected, name.as_str())?;
        }
    }
    Ok(())
}

// The named file, where it isn't as expected.
fn push_file(
    alloc: Global,
    differences: &mut Vec<Difference>,
    folder: &CountingFolder,
    expected: &CountingFolder,
    name: &str,
) -> Result<(), NoMemory> {
    let difference = match (folder.inner.file(name), expected.inner.file(name)) {
        (Some(came), Some(expected)) if came != expected => Difference::Bytes {
            name: String::from_str(alloc, name)?,
            place: first_difference(came, expected),
            came: came.len(),
            expected: expected.len(),
        },
        (Some(came), None) => Difference::Extra {
            name: String::from_str(alloc, name)?,
            came: came.len(),
        },
        (None, Some(expected)) => Difference::Missing {
            name: String::from_str(alloc, name)?,
            expected: expected.len(),
        },
        _ => return Ok(()),
    };
    Ok(differences.push(difference)?)
}

// The first place where the bytes differ: where one is a prefix of the other, behind it.
fn first_difference(came: &[u8], expected: &[u8]) -> usize {
    let same = came.iter().zip(expected.iter());
    same.take_while(|(a, b)| a == b).count()
}
