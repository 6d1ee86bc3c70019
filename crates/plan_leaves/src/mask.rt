// Which columns are read (Substrait `Expression.MaskExpression`).
use crate::{CopyIn, Items};
use std::alloc::Global;
use sub_types::NoMemory;

/// An `Expression.MaskExpression`.
#[derive(Drop)]
pub struct MaskExpression {
    pub select: Option<MaskStruct>,
}

/// An `Expression.MaskExpression.StructSelect`.
#[derive(Drop)]
pub struct MaskStruct {
    pub struct_items: Items<MaskItem>,
}

/// An `Expression.MaskExpression.StructItem`. Of `child` only the presence is read.
#[derive(Clone, Copy)]
pub struct MaskItem {
    pub field: i32,
    pub child: bool,
}

impl CopyIn for MaskExpression {
    fn copy_in(&self, alloc: Global) -> Result<Self, NoMemory> {
        Ok(MaskExpression {
            select: self.select.copy_in(alloc)?,
        })
    }
}

impl CopyIn for MaskStruct {
    fn copy_in(&self, alloc: Global) -> Result<Self, NoMemory> {
        Ok(MaskStruct {
            struct_items: self.struct_items.copy_in(alloc)?,
        })
    }
}

impl CopyIn for MaskItem {
    fn copy_in(&self, _alloc: Global) -> Result<Self, NoMemory> {
        Ok(*self)
    }
}
