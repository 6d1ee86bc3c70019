// Why a file wasn't written.
ghost use Rattle.std.specs.Prelude.{◌≡◌};
ghost use Rattle.arrow_write.specs.declared.error.WriteError.TheVariants as write_errors;

use std::alloc::{AllocError, AllocFailed};
use std::error::Error;
use std::fmt;
use sub_types::NoMemory as WantOfMemory;

/// Why a file wasn't written whole.
#[derive(Clone, Copy, Debug, PartialEq, Eq, Hash)]
pub enum WriteError {
    /// A write failed, and the folder's count of failed writes rose.
    WriteFault,
    NoMemory,
}

impl fmt::Display for WriteError {
    fn fmt<W: fmt::Write>(&self, f: &mut fmt::Formatter<W>) -> fmt::Result {
        f.write_str(match self {
            WriteError::WriteFault => "a write failed",
            WriteError::NoMemory => "no memory",
        })
    }
}

impl Error for WriteError {}

impl From<AllocError> for WriteError {
    ghost from_gives = { λ _ error. error ≡ write_errors.NoMemory };

    fn from(_: AllocError) -> Self {
        WriteError::NoMemory
    }
}

impl<T: Drop> From<AllocFailed<T>> for WriteError {
    ghost from_gives = { λ _ error. error ≡ write_errors.NoMemory };

    fn from(_: AllocFailed<T>) -> Self {
        WriteError::NoMemory
    }
}

impl From<WantOfMemory> for WriteError {
    ghost from_gives = { λ _ error. error ≡ write_errors.NoMemory };

    fn from(_: WantOfMemory) -> Self {
        WriteError::NoMemory
    }
}
