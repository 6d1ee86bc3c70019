// The command `run`.
ghost use Rattle.std.specs.Prelude.{◌≡◌, ◌⊎◌, ◌↔◌, Some, None};
ghost use Rattle.world.specs.Counts.{Rose};
ghost use Rattle.world.specs.Files.{Files};
ghost use Rattle.run_words.specs.Words.{reading_of};
ghost use Rattle.run_words.specs.Lines.{line_of};
ghost use Rattle.run_words.specs.Said.{IsSaid};
ghost use Rattle.run_accepted.specs.Fits.{FitsFiles};
ghost use Rattle.run_top.specs.Answer.{answer, IsDenoted, IsNamed};

use crate::accepted::accepted_plan;
use run_accepted::run_accepted;
use run_words::{Status, read_words, say_line};
use std::alloc::Global;
use std::marker::Sync;
use std::sync::Wait;
use std::thread::Threads;
use sub_types::Word;
use world::{Folder, Gate, Notes};

/// Runs a plan over the files of a folder: `run PLAN OUT WORKERS NAME=FILE..`. It says the line of its answer to the notes.
pub fn run_main<F: Folder, N: Notes, G: Gate, H: Threads + Wait + Sync>(
    rt: &H,
    alloc: Global,
    words: &[Word],
    folder: &mut F,
    notes: &mut N,
    gate: &G,
) -> Status
    // What is denoted is answered and written, or nothing is.
    ensures files { (files : Files) → F.files folder.old ≡ Some files
        → FitsFiles (answer words.now files) (F.files folder.old) (F.files folder.new) result }

    // Where no read and no write failed, and memory was found, the answer is the denoted one.
    ensures complete { (files : Files) → F.files folder.old ≡ Some files
        → Rose (F.read_faults folder.old) (F.read_faults folder.new) ⊎ Rose (F.write_faults folder.old) (F.write_faults folder.new)
        ⊎ (result ≡ Status.NoMemory) ⊎ IsDenoted (answer words.now files) result }

    // When each other answer comes, whatever the folder tells.
    ensures usage { (result ≡ Status.Usage) ↔ (reading_of words.now ≡ None) }
    ensures named { IsNamed result }
    ensures read_fault { result ≡ Status.ReadFault → Rose (F.read_faults folder.old) (F.read_faults folder.new) }
    ensures write_fault { result ≡ Status.WriteFault → Rose (F.write_faults folder.old) (F.write_faults folder.new) }

    // All readers are given back.
    ensures lent { F.lent folder.new ≡ F.lent folder.old }

    ensures notes { IsSaid (N.text notes.old) (N.text notes.new) (N.failures notes.old) (N.failures notes.new) (line_of result) }
{
    let status = run(rt, gate, alloc, words, folder);
    say_line(alloc, notes, &status);
    status
}

/// The answer, before anything is said.
#[tactic(auto, unfolding(crate::specs::Answer::answer), using(crate::proofs::AnswerLaws::not_run, crate::proofs::AnswerLaws::outcome_named))]
fn run<H: Threads + Wait + Sync, F: Folder, G: Gate>(
    rt: &H,
    gate: &G,
    alloc: Global,
    words: &[Word],
    folder: &mut F,
) -> Status
    ensures files { (files : Files) → F.files folder.old ≡ Some files
        → FitsFiles (answer words.now files) (F.files folder.old) (F.files folder.new) result }
    ensures usage { (result ≡ Status.Usage) ↔ (reading_of words.now ≡ None) }
    ensures named { IsNamed result }
    ensures read_fault { result ≡ Status.ReadFault → Rose (F.read_faults folder.old) (F.read_faults folder.new) }
    ensures write_fault { result ≡ Status.WriteFault → Rose (F.write_faults folder.old) (F.write_faults folder.new) }
    ensures lent { F.lent folder.new ≡ F.lent folder.old }
{
    let Some(reading) = read_words(words) else {
        return Status::Usage;
    };
    match accepted_plan(alloc, folder, reading.plan) {
        Ok(plan) => run_accepted(rt, gate, alloc, folder, reading, &plan),
        Err(refusal) => refusal,
    }
}
