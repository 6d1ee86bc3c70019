// Why a call of the outside gave no answer.
ghost use Rattle.std.specs.Prelude.{◌≡◌};
ghost use Rattle.world.specs.declared.error.FolderError.TheVariants as folder_errors;

use std::alloc::{AllocError, AllocFailed};
use std::error::Error;
use std::fmt;
use sub_types::NoMemory as WantOfMemory;

/// Why a folder or a reader gave no answer.
#[derive(Clone, Copy, Debug, PartialEq, Eq, Hash)]
pub enum FolderError {
    /// A read or a write failed, and the count of faults rose.
    Failed,
    NoMemory,
}

impl fmt::Display for FolderError {
    fn fmt<W: fmt::Write>(&self, f: &mut fmt::Formatter<W>) -> fmt::Result {
        f.write_str(match self {
            FolderError::Failed => "a read or a write failed",
            FolderError::NoMemory => "no memory",
        })
    }
}

impl Error for FolderError {}

impl From<AllocError> for FolderError {
    ghost from_gives = { λ _ error. error ≡ folder_errors.NoMemory };

    fn from(_: AllocError) -> Self {
        FolderError::NoMemory
    }
}

impl<T: Drop> From<AllocFailed<T>> for FolderError {
    ghost from_gives = { λ _ error. error ≡ folder_errors.NoMemory };

    fn from(_: AllocFailed<T>) -> Self {
        FolderError::NoMemory
    }
}

impl From<WantOfMemory> for FolderError {
    ghost from_gives = { λ _ error. error ≡ folder_errors.NoMemory };

    fn from(_: WantOfMemory) -> Self {
        FolderError::NoMemory
    }
}

/// Why a note wasn't said whole.
#[derive(Clone, Copy, Debug, PartialEq, Eq, Hash)]
pub enum NotesError {
    /// A write failed.
    Failed,
    NoMemory,
}

impl fmt::Display for NotesError {
    fn fmt<W: fmt::Write>(&self, f: &mut fmt::Formatter<W>) -> fmt::Result {
        f.write_str(match self {
            NotesError::Failed => "a note wasn't said whole",
            NotesError::NoMemory => "no memory",
        })
    }
}

impl Error for NotesError {}
