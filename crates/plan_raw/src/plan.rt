// The root of the untyped tree (Substrait `Plan`, `PlanRel` and `RelRoot`).
ghost use Rattle.std.specs.Prelude.{◌≡◌, IfOk};

use crate::RawRel;
use crate::rel_copy::copy_input;
use plan_leaves::{Boxed, CopyIn, FunDecl, Items, UriDecl, zip};
use std::alloc::Global;
use sub_types::{ByteList, NoMemory};

/// A `PlanRel`. Where it is no root, `input` is absent and `names` is empty.
#[derive(Drop)]
pub struct RootDecl {
    pub is_root: bool,
    pub input: Option<Boxed<RawRel>>,
    pub names: Items<ByteList>,
}

/// A `Plan` as it is written.
#[derive(Drop)]
pub struct PlanTree {
    pub uris: Items<UriDecl>,
    pub functions: Items<FunDecl>,
    pub roots: Items<RootDecl>,
}

impl PlanTree {
    /// An equal tree.
    pub fn copy(&self, alloc: Global) -> Result<PlanTree, NoMemory>
        ensures { IfOk result (λ copy. copy ≡ self.now) }
    {
        Ok(PlanTree {
            uris: self.uris.copy_in(alloc)?,
            functions: self.functions.copy_in(alloc)?,
            roots: self.roots.copy_in(alloc)?,
        })
    }
}

impl CopyIn for RootDecl {
    fn copy_in(&self, alloc: Global) -> Result<Self, NoMemory> {
        let (input, names) = zip(copy_input(alloc, &self.input), self.names.copy_in(alloc))?;
        Ok(RootDecl {
            is_root: self.is_root,
            input,
            names,
        })
    }
}
