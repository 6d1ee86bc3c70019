// Options of function calls (Substrait `FunctionOption`).
use crate::{CopyIn, Items};
use std::alloc::Global;
use sub_types::{ByteList, NoMemory};

/// A `FunctionOption`: a name and its values, the preferred first.
#[derive(Drop)]
pub struct FunctionOption {
    pub name: ByteList,
    pub preference: Items<ByteList>,
}

impl CopyIn for FunctionOption {
    fn copy_in(&self, alloc: Global) -> Result<Self, NoMemory> {
        Ok(FunctionOption {
            name: self.name.copy_in(alloc)?,
            preference: self.preference.copy_in(alloc)?,
        })
    }
}
