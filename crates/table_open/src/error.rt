// Why a table wasn't opened.
ghost use Rattle.std.specs.Prelude.{◌≡◌};
ghost use Rattle.table_open.specs.Answers.{open_error, folder_error, table_error};
ghost use Rattle.table_open.specs.declared.error.FileError.TheVariants as file_errors;
ghost use Rattle.table_open.specs.declared.error.TableError.TheVariants as table_errors;

use arrow_read::OpenError;
use std::alloc::{AllocError, AllocFailed};
use std::error::Error;
use std::fmt;
use sub_types::NoMemory as WantOfMemory;
use world::FolderError;

/// Why a file was refused.
#[derive(Clone, Copy, Debug, PartialEq, Eq, Hash)]
pub enum FileRule {
    /// A table of this relation has no binding.
    Unbound { relation: u32 },
    Missing,
    NotArrow,
    BadFooter { place: u64 },
    Compressed,
    Unsupported { column: u32 },
    /// No column of the file has the name of the plan's column at this place.
    NoColumn { relation: u32, column: u32 },
    /// The file's first column of the name of the plan's column at this place can't be read as its kind.
    WrongType { relation: u32, column: u32 },
}

/// Why a table wasn't opened.
#[derive(Clone, Copy, Debug, PartialEq, Eq, Hash)]
pub enum TableError {
    /// File 0 stands for a name that no word binds; the others are numbered as they are bound, from 1 on.
    Refused { file: u32, rule: FileRule },
    /// A read failed, and the folder's count of failed reads rose.
    ReadFault,
    NoMemory,
}

impl fmt::Display for TableError {
    fn fmt<W: fmt::Write>(&self, f: &mut fmt::Formatter<W>) -> fmt::Result {
        match self {
            TableError::Refused { file, rule: _ } => {
                let file = *file;
                write!(f, "file {file} was refused")
            }
            TableError::ReadFault => f.write_str("a read failed"),
            TableError::NoMemory => f.write_str("no memory"),
        }
    }
}

impl Error for TableError {}

impl From<AllocError> for TableError {
    ghost from_gives = { λ _ error. error ≡ table_errors.NoMemory };

    fn from(_: AllocError) -> Self {
        TableError::NoMemory
    }
}

impl From<WantOfMemory> for TableError {
    ghost from_gives = { λ _ error. error ≡ table_errors.NoMemory };

    fn from(_: WantOfMemory) -> Self {
        TableError::NoMemory
    }
}

impl From<FolderError> for TableError {
    ghost from_gives = { λ failed error. error ≡ folder_error failed };

    fn from(failed: FolderError) -> Self {
        match failed {
            FolderError::Failed => TableError::ReadFault,
            FolderError::NoMemory => TableError::NoMemory,
        }
    }
}

/// Why one file wasn't opened, before its number is told.
#[derive(Clone, Copy, Debug, PartialEq, Eq, Hash)]
pub(crate) enum FileError {
    Refused(FileRule),
    /// A read failed, and the reader's count of faults rose.
    ReadFault,
    NoMemory,
}

impl FileError {
    /// The error with the number of the file.
    pub(crate) fn of_file(self, file: u32) -> TableError
        ensures { result ≡ table_error file self }
    {
        match self {
            FileError::Refused(rule) => TableError::Refused { file, rule },
            FileError::ReadFault => TableError::ReadFault,
            FileError::NoMemory => TableError::NoMemory,
        }
    }
}

impl<T: Drop> From<AllocFailed<T>> for FileError {
    ghost from_gives = { λ _ error. error ≡ file_errors.NoMemory };

    fn from(_: AllocFailed<T>) -> Self {
        FileError::NoMemory
    }
}

impl From<OpenError> for FileError {
    ghost from_gives = { λ failed error. error ≡ open_error failed };

    fn from(failed: OpenError) -> Self {
        match failed {
            OpenError::NotArrow => FileError::Refused(FileRule::NotArrow),
            OpenError::BadFooter { place } => FileError::Refused(FileRule::BadFooter { place }),
            OpenError::Compressed => FileError::Refused(FileRule::Compressed),
            OpenError::Unsupported { column } => {
                FileError::Refused(FileRule::Unsupported { column })
            }
            OpenError::ReadFault => FileError::ReadFault,
            OpenError::NoMemory => FileError::NoMemory,
        }
    }
}
