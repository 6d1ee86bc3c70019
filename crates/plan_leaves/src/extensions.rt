// The functions that a plan declares (Substrait `SimpleExtensionURI` and `SimpleExtensionDeclaration`).
use crate::CopyIn;
use std::alloc::Global;
use sub_types::{ByteList, NoMemory};

/// A `SimpleExtensionURI`: a file of functions, and the number by which the plan names it.
#[derive(Drop)]
pub struct UriDecl {
    pub anchor: u32,
    pub uri: ByteList,
}

/// The `extension_function` of a `SimpleExtensionDeclaration`. A declaration without one has no member in the tree.
#[derive(Drop)]
pub struct FunDecl {
    /// The anchor of the URI that the function's file has.
    pub uri: u32,
    pub anchor: u32,
    pub name: ByteList,
}

impl CopyIn for UriDecl {
    fn copy_in(&self, alloc: Global) -> Result<Self, NoMemory> {
        Ok(UriDecl {
            anchor: self.anchor,
            uri: self.uri.copy_in(alloc)?,
        })
    }
}

impl CopyIn for FunDecl {
    fn copy_in(&self, alloc: Global) -> Result<Self, NoMemory> {
        Ok(FunDecl {
            uri: self.uri,
            anchor: self.anchor,
            name: self.name.copy_in(alloc)?,
        })
    }
}
