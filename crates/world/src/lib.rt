//! The outside world as the engine sees it, as traits: a folder of files, its readers, the notes that are said, and
//! a gate before each block; and folders, readers and notes in memory, with failures that a test can plan. It
//! stands on `sub_types`; the program's folder, over real files, is in `std_folder`, and its notes are in `substrait_run`. What every
//! call leaves is said by the traits' clauses, over `specs/Files.antt`, `Reads.antt`, `Counts.antt` and
//! `Lent.antt`; what is planned to fail in memory is in `specs/Planned.antt`.
#![tactic(auto)]

mod error;
mod file_table;
mod folder;
mod gate;
mod lent;
mod mem_folder;
mod mem_notes;
mod mem_reader;
mod notes;
mod plan;
mod reader;
mod sure;

pub use error::{FolderError, NotesError};
pub use folder::Folder;
pub use gate::{Gate, OpenGate};
pub use mem_folder::MemFolder;
pub use mem_notes::MemNotes;
pub use mem_reader::MemReader;
pub use notes::Notes;
pub use reader::Reader;
pub use sure::{SureFolder, SureReader};
