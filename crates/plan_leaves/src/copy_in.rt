// Copies that may find no memory.
ghost use Rattle.std.specs.Prelude.{◌≡◌, IfOk};

use crate::{Boxed, Items};
use std::alloc::Global;
use sub_types::{ByteList, NoMemory, Ty, Value, Word};

/// What can be copied into memory of its own.
pub trait CopyIn: Sized + Drop {
    /// An equal value.
    fn copy_in(&self, alloc: Global) -> Result<Self, NoMemory>
        ensures { IfOk result (λ copy. copy ≡ self.now) };
}

impl CopyIn for bool {
    fn copy_in(&self, _alloc: Global) -> Result<Self, NoMemory> {
        Ok(*self)
    }
}

impl CopyIn for u32 {
    fn copy_in(&self, _alloc: Global) -> Result<Self, NoMemory> {
        Ok(*self)
    }
}

impl CopyIn for i32 {
    fn copy_in(&self, _alloc: Global) -> Result<Self, NoMemory> {
        Ok(*self)
    }
}

impl CopyIn for Ty {
    fn copy_in(&self, _alloc: Global) -> Result<Self, NoMemory> {
        Ok(*self)
    }
}

impl CopyIn for ByteList {
    fn copy_in(&self, _alloc: Global) -> Result<Self, NoMemory> {
        self.copy()
    }
}

impl CopyIn for Word {
    fn copy_in(&self, _alloc: Global) -> Result<Self, NoMemory> {
        self.copy()
    }
}

impl CopyIn for Value {
    fn copy_in(&self, alloc: Global) -> Result<Self, NoMemory> {
        self.copy(alloc)
    }
}

impl<T: CopyIn> CopyIn for Option<T> {
    fn copy_in(&self, alloc: Global) -> Result<Self, NoMemory> {
        match self {
            None => Ok(None),
            Some(value) => Ok(Some(value.copy_in(alloc)?)),
        }
    }
}

impl<S: CopyIn, T: CopyIn> CopyIn for (S, T) {
    fn copy_in(&self, alloc: Global) -> Result<Self, NoMemory> {
        Ok((self.0.copy_in(alloc)?, self.1.copy_in(alloc)?))
    }
}

impl<T: CopyIn> CopyIn for Boxed<T> {
    fn copy_in(&self, alloc: Global) -> Result<Self, NoMemory> {
        Boxed::new(alloc, self.get().copy_in(alloc)?)
    }
}

impl<T: CopyIn> CopyIn for Items<T> {
    fn copy_in(&self, alloc: Global) -> Result<Self, NoMemory> {
        let items = self.as_slice();
        let mut copies = Vec::with_capacity(alloc, items.len())?;
        for item in items {
            copies.push(item.copy_in(alloc)?)?;
        }
        Ok(Items::from_vec(copies))
    }
}
