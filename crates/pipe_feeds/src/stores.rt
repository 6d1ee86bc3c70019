// What the pipelines that ran so far left.
ghost use Rattle.std.specs.Prelude.{◌≡◌, ◌++◌, ◌∷◌, [], Some, IfOk, IfSome, OnOk, map, slice_get, slice_index_or};
ghost use Rattle.pipe_feeds.specs.Kept.{IsLeft, whole};

use batch::Piece;
use pipe_steps::BuiltTable;
use plan_leaves::Items;
use std::alloc::Global;
use std::mem;
use sub_types::{NoMemory, Ty};

/// What each pipeline so far gathered, in pieces, until a later one takes it; the types that the columns of these are stored with; and
/// the tables that were built.
#[derive(Drop)]
pub struct Stores {
    pub streams: Vec<Option<Items<Piece>>>,
    pub types: Vec<Items<Ty>>,
    pub tables: Vec<BuiltTable>,
}

impl Stores {
    /// Nothing ran yet.
    pub fn new(alloc: Global) -> Stores
        ensures streams { result.streams.items ≡ [] }
        ensures types { result.types.items ≡ [] }
        ensures tables { result.tables.items ≡ [] }
    {
        Stores {
            streams: Vec::new(alloc),
            types: Vec::new(alloc),
            tables: Vec::new(alloc),
        }
    }

    /// Adds what a pipeline gathered, and the types that it is stored with.
    pub fn push(&mut self, types: Vec<Ty>, pieces: Vec<Piece>) -> Result<(), NoMemory>
        ensures streams { OnOk result (self.new.streams.items ≡ self.old.streams.items ++ Some pieces.items ∷ []) }
        ensures types { OnOk result (self.new.types.items ≡ self.old.types.items ++ types.items ∷ []) }
        ensures tables { OnOk result (self.new.tables.items ≡ self.old.tables.items) }
    {
        self.types.push(Items::from_vec(types))?;
        self.streams.push(Some(Items::from_vec(pieces)))?;
        Ok(())
    }
}

/// What the pipeline at a place gathered, if there is one and nobody took it before.
pub fn take_stored(streams: &mut Vec<Option<Items<Piece>>>, at: usize) -> Option<Items<Piece>>
    ensures taken { IfSome result (λ pieces. slice_get streams.old.items at ≡ whole pieces) }
    ensures left { IsLeft streams.old.items streams.new.items }
{
    if at < streams.len() {
        mem::replace(&mut streams[at], None)
    } else {
        None
    }
}

/// What the pipelines at these places gathered. What was taken before can't be given again, which is answered with `NoMemory`.
pub(crate) fn take_each(
    alloc: Global,
    pipes: &[u32],
    streams: &mut Vec<Option<Items<Piece>>>,
) -> Result<Vec<Vec<Piece>>, NoMemory>
    ensures taken { IfOk result (λ inputs. map (λ at. slice_get streams.old.items at) pipes.now ≡ map (λ input. whole input.items) inputs.items) }
    ensures left { OnOk result (IsLeft streams.old.items streams.new.items) }
{
    let mut inputs = Vec::new(alloc);
    for at in pipes {
        let Some(pieces) = take_stored(streams, *at as usize) else {
            return Err(NoMemory);
        };
        inputs.push(pieces.into_vec())?;
    }
    Ok(inputs)
}

/// A copy of the types of a stream, none where there is no such stream.
pub(crate) fn types_at(alloc: Global, types: &[Items<Ty>], at: usize) -> Result<Vec<Ty>, NoMemory>
    ensures { IfOk result (λ copy. copy.items ≡ slice_index_or types.now at []) }
{
    match types.get(at) {
        Some(one) => types_copied(alloc, one.as_slice()),
        None => Ok(Vec::new(alloc)),
    }
}

/// A copy of types.
pub(crate) fn types_copied(alloc: Global, types: &[Ty]) -> Result<Vec<Ty>, NoMemory>
    ensures { IfOk result (λ copy. copy.items ≡ types.now) }
{
    Ok(Vec::from_slice(alloc, types)?)
}
