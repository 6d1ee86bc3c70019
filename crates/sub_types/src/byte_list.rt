// A list of bytes, which contracts see as the list.
ghost use Rattle.std.specs.Prelude.{◌≡◌, ◌↔◌, ℕ, List, [], length, IfOk, IsTrue};

use crate::NoMemory;
use std::alloc::Global;
use std::marker::Model;

/// A list of bytes.
#[derive(Debug, Drop)]
pub struct ByteList {
    items: Vec<u8>,
}

impl Model for ByteList {
    ghost Value = { List ℕ };

    ghost view = { λ list. list.items.items };
}

impl ByteList {
    /// A copy of the bytes.
    pub fn of(alloc: Global, bytes: &[u8]) -> Result<ByteList, NoMemory>
        ensures { IfOk result (λ list. list ≡ bytes.now) }
    {
        Ok(ByteList {
            items: bytes.to_vec(alloc)?,
        })
    }

    /// The bytes of the vector. It takes no memory.
    pub fn from_vec(items: Vec<u8>) -> ByteList
        ensures { result ≡ items.items }
    {
        ByteList { items }
    }

    /// The bytes as a vector. It takes no memory.
    pub fn into_vec(self) -> Vec<u8>
        ensures { result.items ≡ self }
    {
        self.items
    }

    pub fn bytes(&self) -> &[u8]
        ensures { result.now ≡ self.now }
    {
        &self.items
    }

    pub fn len(&self) -> usize
        ensures { result ≡ length self.now }
    {
        self.items.len()
    }

    pub fn is_empty(&self) -> bool
        ensures { IsTrue result ↔ (self.now ≡ []) }
    {
        self.items.is_empty()
    }

    /// An equal list.
    pub fn copy(&self) -> Result<ByteList, NoMemory>
        ensures { IfOk result (λ list. list ≡ self.now) }
    {
        Ok(ByteList {
            items: self.items.clone()?,
        })
    }
}
