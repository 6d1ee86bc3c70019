// The file that is written, which stays open between its appends.
ghost use Rattle.std.specs.Prelude.{◌≡◌, IfOk, IsTrue};

use std::alloc::Global;
use std::fs::{File, OpenOptions};
use std::io::{self, Write};
use std::marker::Model;
use std::rt::Files;
use world::FolderError;

/// A file that is open for appending, seen as its name. Each piece goes to the end that the file then has.
#[derive(Drop)]
pub(crate) struct OutFile {
    name: String,
    file: File,
}

impl Model for OutFile {
    ghost use Rattle.std.specs.Prelude.{ℕ, List};
    ghost use Rattle.std.specs.Coded.{coded_ℕ, coded_list};
    ghost use Rattle.std.specs.String.{string_bytes};

    ghost Value = { List ℕ };

    ghost coded = { coded_list coded_ℕ };

    ghost view = { λ out. string_bytes out.name };
}

impl OutFile {
    /// Makes the named file empty, and opens it.
    pub(crate) fn create<R: Files<File = File>>(
        files: &R,
        alloc: Global,
        name: &str,
    ) -> Result<OutFile, FolderError>
        ensures { IfOk result (λ out. out ≡ name.now) }
    {
        let name_kept = String::from_str(alloc, name)?;
        match emptied(files, name) {
            Ok(file) => Ok(OutFile {
                name: name_kept,
                file,
            }),
            Err(_) => Err(FolderError::Failed),
        }
    }

    /// Opens the named file, which must be there.
    pub(crate) fn open<R: Files<File = File>>(
        files: &R,
        alloc: Global,
        name: &str,
    ) -> Result<OutFile, FolderError>
        ensures { IfOk result (λ out. out ≡ name.now) }
    {
        let name_kept = String::from_str(alloc, name)?;
        match OpenOptions::new().append(true).open(files, name) {
            Ok(file) => Ok(OutFile {
                name: name_kept,
                file,
            }),
            Err(_) => Err(FolderError::Failed),
        }
    }

    pub(crate) fn is_named(&self, name: &str) -> bool
        ensures { IsTrue result → self.now ≡ name.now }
    {
        self.name.as_str() == name
    }

    /// Adds the piece at the end of the file. Where that fails, a part of it may stand there.
    pub(crate) fn append(&mut self, piece: &[u8]) -> Result<(), FolderError>
        ensures { self.new ≡ self.old }
    {
        match self.file.write_all(piece) {
            Ok(()) => Ok(()),
            Err(_) => Err(FolderError::Failed),
        }
    }
}

// The named file, made where it isn't there, without what it held. Only a plain file holds anything.
fn emptied<R: Files<File = File>>(files: &R, name: &str) -> io::Result<File> {
    let file = OpenOptions::new()
        .append(true)
        .create(true)
        .open(files, name)?;
    // A file that is empty isn't cut: some systems write a file out at once when it is closed after a cut.
    let metadata = file.metadata()?;
    if metadata.is_file() && metadata.len() > 0 {
        file.set_len(0)?;
    }
    Ok(file)
}
