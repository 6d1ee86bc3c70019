// Why a file wasn't opened, and why a block wasn't read.
ghost use Rattle.std.specs.Prelude.{◌≡◌};
ghost use Rattle.arrow_read.specs.Refused.{open_error, block_error};
ghost use Rattle.arrow_read.specs.declared.error.OpenError.TheVariants as open_errors;
ghost use Rattle.arrow_read.specs.declared.error.BlockError.TheVariants as block_errors;

use std::alloc::{AllocError, AllocFailed};
use std::error::Error;
use std::fmt;
use sub_types::NoMemory as WantOfMemory;
use world::FolderError;

/// Why a file wasn't opened.
#[derive(Clone, Copy, Debug, PartialEq, Eq, Hash)]
pub enum OpenError {
    /// The file is too short, or doesn't begin and end with the magic.
    NotArrow,
    /// The footer, or at this place its size, says what it can't say.
    BadFooter { place: u64 },
    /// The buffers of a record batch or of a dictionary are compressed.
    Compressed,
    /// The column at this place has a type whose buffers aren't counted.
    Unsupported { column: u32 },
    /// A read failed, and the reader's count of faults rose.
    ReadFault,
    NoMemory,
}

impl fmt::Display for OpenError {
    fn fmt<W: fmt::Write>(&self, f: &mut fmt::Formatter<W>) -> fmt::Result {
        match self {
            OpenError::NotArrow => f.write_str("not an Arrow file"),
            OpenError::BadFooter { place } => {
                let place = *place;
                write!(f, "the footer at byte {place} can't be read")
            }
            OpenError::Compressed => f.write_str("a record batch is compressed"),
            OpenError::Unsupported { column } => {
                let column = *column;
                write!(f, "the type of column {column} isn't supported")
            }
            OpenError::ReadFault => f.write_str("a read failed"),
            OpenError::NoMemory => f.write_str("no memory"),
        }
    }
}

impl Error for OpenError {}

impl From<AllocError> for OpenError {
    ghost from_gives = { λ _ error. error ≡ open_errors.NoMemory };

    fn from(_: AllocError) -> Self {
        OpenError::NoMemory
    }
}

impl<T: Drop> From<AllocFailed<T>> for OpenError {
    ghost from_gives = { λ _ error. error ≡ open_errors.NoMemory };

    fn from(_: AllocFailed<T>) -> Self {
        OpenError::NoMemory
    }
}

impl From<WantOfMemory> for OpenError {
    ghost from_gives = { λ _ error. error ≡ open_errors.NoMemory };

    fn from(_: WantOfMemory) -> Self {
        OpenError::NoMemory
    }
}

impl From<FolderError> for OpenError {
    ghost from_gives = { λ failed error. error ≡ open_error failed };

    fn from(failed: FolderError) -> Self {
        match failed {
            FolderError::Failed => OpenError::ReadFault,
            FolderError::NoMemory => OpenError::NoMemory,
        }
    }
}

/// Why a block wasn't read.
#[derive(Clone, Copy, Debug, PartialEq, Eq, Hash)]
pub enum BlockError {
    /// The metadata of the block is bad.
    BadBatch,
    /// A read failed, and the reader's count of faults rose.
    ReadFault,
    NoMemory,
}

impl fmt::Display for BlockError {
    fn fmt<W: fmt::Write>(&self, f: &mut fmt::Formatter<W>) -> fmt::Result {
        f.write_str(match self {
            BlockError::BadBatch => "the record batch is bad",
            BlockError::ReadFault => "a read failed",
            BlockError::NoMemory => "no memory",
        })
    }
}

impl Error for BlockError {}

impl From<AllocError> for BlockError {
    ghost from_gives = { λ _ error. error ≡ block_errors.NoMemory };

    fn from(_: AllocError) -> Self {
        BlockError::NoMemory
    }
}

impl<T: Drop> From<AllocFailed<T>> for BlockError {
    ghost from_gives = { λ _ error. error ≡ block_errors.NoMemory };

    fn from(_: AllocFailed<T>) -> Self {
        BlockError::NoMemory
    }
}

impl From<WantOfMemory> for BlockError {
    ghost from_gives = { λ _ error. error ≡ block_errors.NoMemory };

    fn from(_: WantOfMemory) -> Self {
        BlockError::NoMemory
    }
}

impl From<FolderError> for BlockError {
    ghost from_gives = { λ failed error. error ≡ block_error failed };

    fn from(failed: FolderError) -> Self {
        match failed {
            FolderError::Failed => BlockError::ReadFault,
            FolderError::NoMemory => BlockError::NoMemory,
        }
    }
}
