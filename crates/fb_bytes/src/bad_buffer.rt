// What is answered for bytes that don't hold what is read of them.
use std::error::Error;
use std::fmt;

/// The item that begins at `place` isn't inside the bytes. The place may be below 0 or past the end.
#[derive(Clone, Copy, Debug, PartialEq, Eq, Hash)]
pub struct BadBuffer {
    pub place: i64,
}

impl fmt::Display for BadBuffer {
    fn fmt<W: fmt::Write>(&self, f: &mut fmt::Formatter<W>) -> fmt::Result {
        let place = self.place;
        write!(f, "the item at {place} is not inside the bytes")
    }
}

impl Error for BadBuffer {}
