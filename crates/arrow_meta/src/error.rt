// Why metadata wasn't read.
ghost use Rattle.std.specs.Prelude.{◌≡◌};
ghost use Rattle.arrow_meta.specs.declared.error.MetaError.TheVariants as meta_errors;

use fb_bytes::BadBuffer;
use std::alloc::{AllocError, AllocFailed};
use std::error::Error;
use std::fmt;
use sub_types::NoMemory as WantOfMemory;

/// Why a footer or a message wasn't read.
#[derive(Clone, Copy, Debug, PartialEq, Eq, Hash)]
pub enum MetaError {
    /// A part isn't inside the bytes, or says what it can't say.
    Bad,
    /// The column at this place has a type whose buffers aren't counted.
    Unsupported { column: u32 },
    /// The buffers of the record batch are compressed.
    Compressed,
    NoMemory,
}

impl fmt::Display for MetaError {
    fn fmt<W: fmt::Write>(&self, f: &mut fmt::Formatter<W>) -> fmt::Result {
        match self {
            MetaError::Bad => f.write_str("the metadata can't be read"),
            MetaError::Unsupported { column } => {
                let column = *column;
                write!(f, "the type of column {column} isn't supported")
            }
            MetaError::Compressed => f.write_str("the record batch is compressed"),
            MetaError::NoMemory => f.write_str("no memory"),
        }
    }
}

impl Error for MetaError {}

impl From<BadBuffer> for MetaError {
    ghost from_gives = { λ _ error. error ≡ meta_errors.Bad };

    fn from(_: BadBuffer) -> Self {
        MetaError::Bad
    }
}

impl From<AllocError> for MetaError {
    ghost from_gives = { λ _ error. error ≡ meta_errors.NoMemory };

    fn from(_: AllocError) -> Self {
        MetaError::NoMemory
    }
}

impl<T: Drop> From<AllocFailed<T>> for MetaError {
    ghost from_gives = { λ _ error. error ≡ meta_errors.NoMemory };

    fn from(_: AllocFailed<T>) -> Self {
        MetaError::NoMemory
    }
}

impl From<WantOfMemory> for MetaError {
    ghost from_gives = { λ _ error. error ≡ meta_errors.NoMemory };

    fn from(_: WantOfMemory) -> Self {
        MetaError::NoMemory
    }
}
