// The program: the commands of `run_top` over the files of the current folder.
#![tactic(auto)]

mod notes;
mod words;

use notes::StdNotes;
use run_top::{Status, command_main, exit_number};
use std::process::ExitCode;
use std_folder::StdFolder;
use world::OpenGate;

fn main(rt: HostRuntime) -> ExitCode {
    let Ok(words) = words::words_of(&rt, rt.alloc()) else {
        let _ = println!(rt; "no memory");
        return ExitCode::from(exit_number(&Status::NoMemory));
    };
    let mut folder = StdFolder::new(&rt);
    let mut notes = StdNotes::new(&rt);
    let status = command_main(&rt, rt.alloc(), &words, &mut folder, &mut notes, &OpenGate);
    ExitCode::from(exit_number(&status))
}
