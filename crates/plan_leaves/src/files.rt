// Which files are read (Substrait `ReadRel.LocalFiles`).
use crate::{CopyIn, Items};
use std::alloc::Global;
use sub_types::{ByteList, NoMemory};

/// A `ReadRel.LocalFiles`.
#[derive(Drop)]
pub struct LocalFiles {
    pub items: Items<FileItem>,
}

/// A `ReadRel.LocalFiles.FileOrFiles`. Of `arrow` only the presence is read.
#[derive(Drop)]
pub struct FileItem {
    pub path: ItemPath,
    pub arrow: bool,
}

/// The oneof `path_type` of an item.
#[derive(Drop)]
pub enum ItemPath {
    Missing,
    UriPath(ByteList),
    UriFile(ByteList),
}

impl CopyIn for LocalFiles {
    fn copy_in(&self, alloc: Global) -> Result<Self, NoMemory> {
        Ok(LocalFiles {
            items: self.items.copy_in(alloc)?,
        })
    }
}

impl CopyIn for FileItem {
    fn copy_in(&self, alloc: Global) -> Result<Self, NoMemory> {
        Ok(FileItem {
            path: self.path.copy_in(alloc)?,
            arrow: self.arrow,
        })
    }
}

impl CopyIn for ItemPath {
    fn copy_in(&self, alloc: Global) -> Result<Self, NoMemory> {
        match self {
            ItemPath::Missing => Ok(ItemPath::Missing),
            ItemPath::UriPath(path) => Ok(ItemPath::UriPath(path.copy_in(alloc)?)),
            ItemPath::UriFile(path) => Ok(ItemPath::UriFile(path.copy_in(alloc)?)),
        }
    }
}
