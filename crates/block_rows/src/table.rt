// A table that is read block by block.
ghost use Rattle.std.specs.Prelude.{◌≡◌, length, vec_len};
ghost use Rattle.std.specs.List.{All};
ghost use Rattle.std.proofs.Props.{props};
ghost use Rattle.batch.specs.KindLaws.{IsKind-prop};
ghost use Rattle.sub_types.specs.Kind.{IsKind};

use block_source::TableBlocks;
use sub_types::Ty;

/// The blocks of a table, for each of its files its number among the words, the number of the relation that reads it, and the types of
/// its columns.
#[derive(Drop)]
pub struct TableRows<'a> {
    pub table: &'a TableBlocks,
    pub numbers: &'a [u32],
    pub relation: u32,
    pub types: &'a [Ty],
    pub ghost count: { length numbers.now ≡ vec_len table.now.files } by { Prim.hlevel props },
    pub ghost kinds: { All (λ ty. IsKind ty.kind) types.now } by { Prim.hlevel (props, IsKind-prop) },
}
