//! The current folder for the traits of `world`: a folder of the system's files, each of which is open once however
//! many readers share it, and an out file that stays open between its appends. Others can change the files, so
//! nothing is told of their bytes; `specs/Seen.antt` says what contracts see.
#![tactic(auto)]

mod folder;
mod open_files;
mod out_file;
mod reader;

pub use folder::StdFolder;
pub use reader::StdReader;
