// What each relation has (Substrait `RelCommon`).
use crate::{CopyIn, Items};
use std::alloc::Global;
use sub_types::NoMemory;

/// A `RelCommon`. Of `direct` only the presence is read.
#[derive(Drop)]
pub enum RelCommon {
    Missing,
    Direct,
    Emit { output_mapping: Items<i32> },
}

impl CopyIn for RelCommon {
    fn copy_in(&self, alloc: Global) -> Result<Self, NoMemory> {
        match self {
            RelCommon::Missing => Ok(RelCommon::Missing),
            RelCommon::Direct => Ok(RelCommon::Direct),
            RelCommon::Emit { output_mapping } => Ok(RelCommon::Emit {
                output_mapping: output_mapping.copy_in(alloc)?,
            }),
        }
    }
}
