// The command `check`.
ghost use Rattle.std.specs.Prelude.{◌≡◌, ◌⊎◌, ◌↔◌, Some, None};
ghost use Rattle.world.specs.Counts.{Rose};
ghost use Rattle.world.specs.Files.{Files};
ghost use Rattle.run_words.specs.Words.{plan_to_check};
ghost use Rattle.run_words.specs.Lines.{check_line_of};
ghost use Rattle.run_words.specs.Said.{IsSaid};
ghost use Rattle.run_top.specs.Answer.{check_answer, FitsCheck, IsCheckDenoted, IsCheckNamed, IsEmpty};

use crate::accepted::accepted_plan;
use run_words::{Report, Status, read_check, say_check_line};
use std::alloc::Global;
use sub_types::Word;
use world::{Folder, Notes};

/// Checks a plan and runs nothing: `check PLAN`. An accepted plan has a report of no rows and no receipts. It says the line
/// of its answer to the notes.
pub fn check_main<F: Folder, N: Notes>(
    alloc: Global,
    words: &[Word],
    folder: &mut F,
    notes: &mut N,
) -> Status
    // What is denoted is answered, and all files are as they were.
    ensures files { (files : Files) → F.files folder.old ≡ Some files
        → FitsCheck (check_answer words.now files) (F.files folder.old) (F.files folder.new) result }

    // Where no read failed, and memory was found, the answer is the denoted one.
    ensures complete { (files : Files) → F.files folder.old ≡ Some files
        → Rose (F.read_faults folder.old) (F.read_faults folder.new)
        ⊎ (result ≡ Status.NoMemory) ⊎ IsCheckDenoted (check_answer words.now files) result }

    // When each other answer comes, whatever the folder tells.
    ensures usage { (result ≡ Status.Usage) ↔ (plan_to_check words.now ≡ None) }
    ensures named { IsCheckNamed result }
    ensures read_fault { result ≡ Status.ReadFault → Rose (F.read_faults folder.old) (F.read_faults folder.new) }

    // Nothing is written, and all readers are given back.
    ensures kept { F.files folder.new ≡ F.files folder.old }
    ensures write_faults { F.write_faults folder.new ≡ F.write_faults folder.old }
    ensures lent { F.lent folder.new ≡ F.lent folder.old }

    ensures notes { IsSaid (N.text notes.old) (N.text notes.new) (N.failures notes.old) (N.failures notes.new) (check_line_of result) }
{
    let status = checked(alloc, words, folder);
    say_check_line(alloc, notes, &status);
    status
}

// The answer, before anything is said.
#[tactic(auto, unfolding(crate::specs::Answer::check_answer), using(crate::proofs::AnswerLaws::not_accepted_check))]
fn checked<F: Folder>(alloc: Global, words: &[Word], folder: &mut F) -> Status
    ensures files { (files : Files) → F.files folder.old ≡ Some files
        → FitsCheck (check_answer words.now files) (F.files folder.old) (F.files folder.new) result }
    ensures usage { (result ≡ Status.Usage) ↔ (plan_to_check words.now ≡ None) }
    ensures named { IsCheckNamed result }
    ensures read_fault { result ≡ Status.ReadFault → Rose (F.read_faults folder.old) (F.read_faults folder.new) }
    ensures kept { F.files folder.new ≡ F.files folder.old }
    ensures write_faults { F.write_faults folder.new ≡ F.write_faults folder.old }
    ensures lent { F.lent folder.new ≡ F.lent folder.old }
{
    let Some(plan) = read_check(words) else {
        return Status::Usage;
    };
    match accepted_plan(alloc, folder, plan) {
        Ok(_) => Status::Ok(no_report(alloc)),
        Err(refusal) => refusal,
    }
}

// Nothing was run.
fn no_report(alloc: Global) -> Report
    ensures { IsEmpty result }
{
    Report {
        rows: 0,
        receipts: Vec::new(alloc),
    }
}
