// Why a raw batch wasn't decoded.
ghost use Rattle.std.specs.Prelude.{◌≡◌};
ghost use Rattle.arrow_decode.specs.declared.error.RawError.TheVariants as raw_errors;

use std::alloc::{AllocError, AllocFailed};
use std::error::Error;
use std::fmt;
use sub_types::NoMemory as WantOfMemory;

/// Why a raw batch wasn't decoded.
#[derive(Clone, Copy, Debug, PartialEq, Eq, Hash)]
pub enum RawError {
    /// The metadata or a wanted column isn't what a record batch may hold.
    BadBatch,
    NoMemory,
}

impl fmt::Display for RawError {
    fn fmt<W: fmt::Write>(&self, f: &mut fmt::Formatter<W>) -> fmt::Result {
        f.write_str(match self {
            RawError::BadBatch => "the record batch is bad",
            RawError::NoMemory => "no memory",
        })
    }
}

impl Error for RawError {}

impl From<AllocError> for RawError {
    ghost from_gives = { λ _ error. error ≡ raw_errors.NoMemory };

    fn from(_: AllocError) -> Self {
        RawError::NoMemory
    }
}

impl<T: Drop> From<AllocFailed<T>> for RawError {
    ghost from_gives = { λ _ error. error ≡ raw_errors.NoMemory };

    fn from(_: AllocFailed<T>) -> Self {
        RawError::NoMemory
    }
}

impl From<WantOfMemory> for RawError {
    ghost from_gives = { λ _ error. error ≡ raw_errors.NoMemory };

    fn from(_: WantOfMemory) -> Self {
        RawError::NoMemory
    }
}
