// What a table is called and what its columns are (Substrait `NamedTable` and `NamedStruct`).
use crate::{CopyIn, Items, StructType, zip};
use std::alloc::Global;
use sub_types::{ByteList, NoMemory};

/// A `NamedStruct`: the names and types of a table's columns.
#[derive(Drop)]
pub struct NamedStruct {
    pub names: Items<ByteList>,
    pub struct_: Option<StructType>,
}

/// A `ReadRel.NamedTable`.
#[derive(Drop)]
pub struct NamedTable {
    pub names: Items<ByteList>,
}

impl CopyIn for NamedStruct {
    fn copy_in(&self, alloc: Global) -> Result<Self, NoMemory> {
        let (names, struct_) = zip(self.names.copy_in(alloc), self.struct_.copy_in(alloc))?;
        Ok(NamedStruct { names, struct_ })
    }
}

impl CopyIn for NamedTable {
    fn copy_in(&self, alloc: Global) -> Result<Self, NoMemory> {
        Ok(NamedTable {
            names: self.names.copy_in(alloc)?,
        })
    }
}
