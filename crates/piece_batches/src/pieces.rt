// Pieces as batches.
ghost use Rattle.std.specs.Prelude.{◌≡◌, IfOk, map};
ghost use Rattle.std.specs.List.{All};
ghost use Rattle.sub_types.specs.Stream.{glue};
ghost use Rattle.batch.specs.BatchRows.{rows_of, stream_of_piece, types_of};
ghost use Rattle.table_rows.specs.Read.{kinds_of};
ghost use Rattle.piece_batches.specs.Ended.{ended_stream};

use batch::{Batch, Piece};
use std::alloc::Global;
use sub_types::{Fault, NoMemory, Ty};
use table_rows::retyped;

/// The rows of a relation in batches, and the fault that ends them.
#[derive(Debug, Drop)]
pub struct EndedBatches {
    pub batches: Vec<Batch>,
    pub end: Option<Fault>,
}

/// The batches of pieces up to the first that ends in a fault, with these types, which are of the same kinds.
pub fn in_batches(alloc: Global, types: &[Ty], pieces: Vec<Piece>) -> Result<EndedBatches, NoMemory>
    requires { All (λ piece. kinds_of (types_of piece.batch) ≡ kinds_of types.now) pieces.items }
    ensures rows { IfOk result (λ all. ended_stream all ≡ glue (map stream_of_piece pieces.items)) }
    ensures types { IfOk result (λ all. All (λ batch. types_of batch ≡ types.now) all.batches.items) }
{
    let mut batches = Vec::new(alloc);
    for piece in pieces {
        let Piece { batch, end } = piece;
        batches.push(typed_batch(types, batch))?;
        if end.is_some() {
            return Ok(EndedBatches { batches, end });
        }
    }
    Ok(EndedBatches { batches, end: None })
}

// The batch with these types.
fn typed_batch(types: &[Ty], batch: Batch) -> Batch
    requires { kinds_of (types_of batch) ≡ kinds_of types.now }
    ensures rows { rows_of result ≡ rows_of batch }
    ensures types { types_of result ≡ types.now }
{
    retyped(types, batch)
}
