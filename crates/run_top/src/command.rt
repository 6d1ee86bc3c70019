// The command that the words name.
ghost use Rattle.std.specs.Prelude.{◌≡◌, ◌⊎◌, ◌↔◌, Some};
ghost use Rattle.world.specs.Counts.{Rose};
ghost use Rattle.world.specs.Files.{Files};
ghost use Rattle.run_words.specs.Words as spec;
ghost use Rattle.run_words.specs.Said.{IsSaid};
ghost use Rattle.run_top.specs.Command.{FitsCommand, IsCommandDenoted, HasNoReading, IsCommandNamed, command_text_of};

use crate::check::check_main;
use crate::demo::demo_main;
use crate::run::run_main;
use run_words::{Command, Status, command_of};
use std::alloc::Global;
use std::marker::Sync;
use std::sync::Wait;
use std::thread::Threads;
use sub_types::Word;
use world::{Folder, Gate, Notes};

/// Does the command that the first word names: `run`, `check` or `demo`. Words that name no command are answered by `run`, as
/// faulty ones.
#[tactic(auto, using(crate::proofs::DemoLaws::demo_named, crate::proofs::DemoLaws::demo_usage))]
pub fn command_main<F: Folder, N: Notes, G: Gate, H: Threads + Wait + Sync>(
    rt: &H,
    alloc: Global,
    words: &[Word],
    folder: &mut F,
    notes: &mut N,
    gate: &G,
) -> Status
    ensures files { (files : Files) → F.files folder.old ≡ Some files
        → FitsCommand (spec.command_of words.now) words.now files (F.files folder.old) (F.files folder.new) result }
    ensures complete { (files : Files) → F.files folder.old ≡ Some files
        → Rose (F.read_faults folder.old) (F.read_faults folder.new) ⊎ Rose (F.write_faults folder.old) (F.write_faults folder.new)
        ⊎ (result ≡ Status.NoMemory) ⊎ IsCommandDenoted (spec.command_of words.now) words.now files result }
    ensures usage { (result ≡ Status.Usage) ↔ HasNoReading (spec.command_of words.now) words.now }
    ensures named { IsCommandNamed (spec.command_of words.now) result }
    ensures read_fault { result ≡ Status.ReadFault → Rose (F.read_faults folder.old) (F.read_faults folder.new) }
    ensures write_fault { result ≡ Status.WriteFault → Rose (F.write_faults folder.old) (F.write_faults folder.new) }
    ensures lent { F.lent folder.new ≡ F.lent folder.old }
    ensures notes { IsSaid (N.text notes.old) (N.text notes.new) (N.failures notes.old) (N.failures notes.new) (command_text_of (spec.command_of words.now) words.now result) }
{
    match command_of(words) {
        Command::Check => check_main(alloc, words, folder, notes),
        Command::Demo => demo_main(rt, alloc, words, notes, gate),
        Command::Run => run_main(rt, alloc, words, folder, notes, gate),
    }
}
