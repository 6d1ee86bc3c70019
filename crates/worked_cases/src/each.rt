// The runs of a case in which one call fails: each call in turn.
use crate::case::{Case, Failure};
use crate::folder::CountingFolder;
use crate::run::{
    Difference, Differing, Outcome, Variant, differences_of, expected_of, plan_failure, run_words,
    start_folder, words_of,
};
use std::alloc::Global;
use std::marker::Sync;
use std::sync::Wait;
use std::thread::Threads;
use sub_types::NoMemory;

// Calls of one kind, of which one fails in a run.
#[derive(Clone, Copy)]
enum Calls<'a> {
    Open(&'a str),
    Len(&'a str),
    Read(&'a str),
    Again(&'a str),
    Create,
    // What the failing append keeps of its piece, or the whole piece where that is shorter.
    Append { kept: u32 },
}

impl<'a> Calls<'a> {
    // The failure of the call with this index, or `None` where all of these calls fail at once and have no further index.
    fn failure(self, alloc: Global, index: u32) -> Result<Option<Failure>, NoMemory> {
        let failure = match self {
            Calls::Read(name) => Failure::Read {
                name: String::from_str(alloc, name)?,
                index,
            },
            Calls::Again(name) => Failure::Again {
                name: String::from_str(alloc, name)?,
                index,
            },
            Calls::Append { kept } => Failure::Append { index, kept },
            _ if index > 0 => return Ok(None),
            Calls::Open(name) => Failure::Open {
                name: String::from_str(alloc, name)?,
            },
            Calls::Len(name) => Failure::Len {
                name: String::from_str(alloc, name)?,
            },
            Calls::Create => Failure::Create,
        };
        Ok(Some(failure))
    }

    // Whether each run makes this call. One may do without a second reader.
    fn comes(self, index: u32) -> bool {
        index == 0 && !matches!(self, Calls::Again(_))
    }
}

// What came of a run in which a call was to fail.
#[derive(Drop)]
enum Trial<'a> {
    // Something else than is expected.
    Differs(Differing<'a>),
    // The fault that is expected; and the run behind it gave what the case expects.
    Failed,
    // What the case expects: no call failed.
    Passed,
}

/// The first run with a failing call that differs, or `None`.
pub(crate) fn first_differing<'a, H: Threads + Wait + Sync>(
    rt: &H,
    alloc: Global,
    case: &'a Case,
    variant: Variant<'a>,
) -> Result<Option<Differing<'a>>, NoMemory> {
    for calls in calls_of(alloc, case)?.iter() {
        if let Some(differing) = differing_of(rt, alloc, case, variant, *calls)? {
            return Ok(Some(differing));
        }
    }
    Ok(None)
}

// The kinds of calls: of each file, and those that write where the case has an out file.
fn calls_of<'a>(alloc: Global, case: &'a Case) -> Result<Vec<Calls<'a>>, NoMemory> {
    let mut calls = Vec::new(alloc);
    for name in case.each.iter() {
        let name = name.as_str();
        calls.push(Calls::Open(name))?;
        calls.push(Calls::Len(name))?;
        calls.push(Calls::Read(name))?;
        calls.push(Calls::Again(name))?;
    }
    if !case.each.is_empty() && !case.outs.is_empty() {
        calls.push(Calls::Create)?;
        calls.push(Calls::Append { kept: 0 })?;
        calls.push(Calls::Append { kept: 1 })?;
        calls.push(Calls::Append { kept: u32::MAX })?;
    }
    Ok(calls)
}

// A run for each of these calls, up to the first index that no call has: the run with that one passes.
fn differing_of<'a, H: Threads + Wait + Sync>(
    rt: &H,
    alloc: Global,
    case: &'a Case,
    variant: Variant<'a>,
    calls: Calls<'a>,
) -> Result<Option<Differing<'a>>, NoMemory> {
    for index in 0..u32::MAX {
        let Some(failure) = calls.failure(alloc, index)? else {
            return Ok(None);
        };
        match trial_of(rt, alloc, case, variant, failure, calls.comes(index))? {
            Trial::Differs(differing) => return Ok(Some(differing)),
            Trial::Failed => {}
            Trial::Passed => return Ok(None),
        }
    }
    Ok(None)
}

// A run with the failure, and where it failed the same words again without.
fn trial_of<'a, H: Threads + Wait + Sync>(
    rt: &H,
    alloc: Global,
    case: &'a Case,
    variant: Variant<'a>,
    failure: Failure,
    must_fail: bool,
) -> Result<Trial<'a>, NoMemory> {
    let outcome = first_outcome(rt, alloc, case, variant, &failure)?;
    let has_failed = must_fail || outcome.number != case.status;
    let expected = if has_failed {
        expected_fault(alloc, case, variant, &failure, &outcome.folder)?
    } else {
        expected_of(alloc, case, variant)?
    };
    let differences = differences_of(alloc, &outcome, &expected)?;
    if !differences.is_empty() {
        return Ok(differing(variant, failure, false, differences));
    }
    if !has_failed {
        return Ok(Trial::Passed);
    }
    let differences = second_differences(rt, alloc, case, variant, outcome.folder)?;
    if differences.is_empty() {
        return Ok(Trial::Failed);
    }
    Ok(differing(variant, failure, true, differences))
}

fn differing(
    variant: Variant<'_>,
    failure: Failure,
    is_second: bool,
    differences: Vec<Difference>,
) -> Trial<'_> {
    Trial::Differs(Differing {
        variant,
        failure: Some(failure),
        is_second,
        differences,
    })
}

// What comes of a run with the failure.
fn first_outcome<H: Threads + Wait + Sync>(
    rt: &H,
    alloc: Global,
    case: &Case,
    variant: Variant<'_>,
    failure: &Failure,
) -> Result<Outcome, NoMemory> {
    let words = words_of(alloc, case, variant)?;
    let mut folder = start_folder(alloc, case, variant)?;
    plan_failure(&mut folder.inner, failure)?;
    run_words(rt, alloc, &words, folder)
}

// Where a run over the folder that is left, without failures, isn't what the case expects.
fn second_differences<H: Threads + Wait + Sync>(
    rt: &H,
    alloc: Global,
    case: &Case,
    variant: Variant<'_>,
    folder: CountingFolder,
) -> Result<Vec<Difference>, NoMemory> {
    let words = words_of(alloc, case, variant)?;
    let mut folder = folder;
    folder.inner.clear();
    let outcome = run_words(rt, alloc, &words, folder)?;
    differences_of(alloc, &outcome, &expected_of(alloc, case, variant)?)
}

// What is expected where the call failed. The folder tells which pieces were appended.
fn expected_fault(
    alloc: Global,
    case: &Case,
    variant: Variant<'_>,
    failure: &Failure,
    folder: &CountingFolder,
) -> Result<Outcome, NoMemory> {
    let mut expected = Outcome {
        text: line_of(failure).as_bytes().to_vec(alloc)?,
        number: number_of(failure),
        folder: start_folder(alloc, case, variant)?,
    };
    if let (Failure::Append { kept, .. }, Some(out)) = (failure, case.outs.first()) {
        let left = out.bytes.get(..folder.left_of_pieces(*kept));
        expected
            .folder
            .put_file(out.name.as_str(), left.unwrap_or(&out.bytes))?;
    }
    Ok(expected)
}

// What is said where the call failed.
fn line_of(failure: &Failure) -> &'static str {
    if failure.is_of_writing() {
        "write fault\n"
    } else {
        "read fault\n"
    }
}

// The number that the program ends with where the call failed.
fn number_of(failure: &Failure) -> u8 {
    if failure.is_of_writing() { 8 } else { 7 }
}
