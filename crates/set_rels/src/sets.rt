// Set operations over whole inputs.
ghost use Rattle.std.specs.Prelude.{◌≡◌, ◌≢◌, ◌<◌, ◌≤◌, None, Some, List, map, length, All, IfOk};
ghost use Rattle.std.specs.List.{flat_map};
ghost use Rattle.sub_types.specs.Kind.{IsKind};
ghost use Rattle.sub_types.specs.Stream.{rows_alone, ended};
ghost use Rattle.plan_typed.specs.declared.rel.SetOp.TheVariants as ops;
ghost use Rattle.plan_denote.specs.Rows.{Row, unless_fault};
ghost use Rattle.plan_denote.specs.Sets as spec;
ghost use Rattle.batch.specs.BatchRows.{rows_of, types_of, stream_of_piece};
ghost use Rattle.set_places.specs.Taken.{AreEnds, ends_from};
ghost use Rattle.set_rels.specs.Inputs.{stream_of, HasKinds, first_end, other_ends};
ghost use Rattle.set_rels.specs.Keyed.{all_rows};

use crate::keyed_rows::KeyedRows;
use crate::one_batch::OneBatch;
use crate::pieces::{batches_of, ends_of, first_fault, pieces_of};
use crate::typed::push_typed;
use batch::{Batch, Piece, join_batches};
use batch_places::{are_few, gather_in_parts};
use hash_chains::Chains;
use plan_typed::SetOp;
use set_places::taken_rows;
use std::alloc::Global;
use sub_types::{Fault, NoMemory, Ty};

/// The rows of a set operation over its inputs, in pieces of up to 65,536 rows, and of UNION_ALL in those of the inputs. The
/// columns have these types, whose kinds are those of the inputs. The first input that ends in a fault leaves no rows and that
/// fault; UNION_ALL gives the rows before it.
pub fn set_op(
    alloc: Global,
    op: SetOp,
    inputs: Vec<Vec<Piece>>,
    types: &[Ty],
) -> Result<Vec<Piece>, NoMemory>
    requires kinds { All (λ ty. IsKind ty.kind) types.now }
    requires alike { All (λ input. All (λ piece. HasKinds types.now piece.batch) input.items) inputs.items }
    ensures rows { IfOk result (λ pieces. stream_of pieces.items ≡ spec.set_rows op (map (λ input. stream_of input.items) inputs.items)) }
    ensures types { IfOk result (λ pieces. All (λ piece. types_of piece.batch ≡ types.now) pieces.items) }
    ensures few { (op ≢ ops.UnionAll) → IfOk result (λ pieces. All (λ piece. piece.batch.rows ≤ 65536) pieces.items) }
{
    match op {
        SetOp::UnionAll => typed_pieces(alloc, types, inputs),
        _ => whole_rows(alloc, op, inputs, types),
    }
}

// The pieces of all inputs, with columns of these types.
fn typed_pieces(
    alloc: Global,
    types: &[Ty],
    inputs: Vec<Vec<Piece>>,
) -> Result<Vec<Piece>, NoMemory>
    requires { All (λ input. All (λ piece. HasKinds types.now piece.batch) input.items) inputs.items }
    ensures streams { IfOk result (λ pieces. map stream_of_piece pieces.items ≡ flat_map (λ input. map stream_of_piece input.items) inputs.items) }
    ensures types { IfOk result (λ pieces. All (λ piece. types_of piece.batch ≡ types.now) pieces.items) }
{
    let mut all = Vec::new(alloc);
    for pieces in inputs {
        push_typed(alloc, types, pieces, &mut all)?;
    }
    Ok(all)
}

// The rows of an operation that needs all rows of its inputs.
fn whole_rows(
    alloc: Global,
    op: SetOp,
    inputs: Vec<Vec<Piece>>,
    types: &[Ty],
) -> Result<Vec<Piece>, NoMemory>
    requires kinds { All (λ ty. IsKind ty.kind) types.now }
    requires alike { All (λ input. All (λ piece. HasKinds types.now piece.batch) input.items) inputs.items }
    ensures rows { (op ≢ ops.UnionAll) → IfOk result (λ pieces. stream_of pieces.items ≡ unless_fault (spec.first_fault (map (λ input. stream_of input.items) inputs.items)) (rows_alone (spec.set_in op (map (λ input. (stream_of input.items).rows) inputs.items)))) }
    ensures types { IfOk result (λ pieces. All (λ piece. types_of piece.batch ≡ types.now) pieces.items) }
    ensures few { IfOk result (λ pieces. All (λ piece. piece.batch.rows ≤ 65536) pieces.items) }
{
    if let Some(fault) = first_fault(&inputs) {
        return fault_alone(alloc, types, fault);
    }
    let ends = ends_of(alloc, &inputs)?;
    let pieces = typed_pieces(alloc, types, inputs)?;
    let runs = batches_of(alloc, pieces)?;
    let batches = taken_batches(alloc, op, types, runs, &ends)?;
    pieces_of(alloc, batches)
}

// No rows and a fault.
fn fault_alone(alloc: Global, types: &[Ty], fault: Fault) -> Result<Vec<Piece>, NoMemory>
    requires { All (λ ty. IsKind ty.kind) types.now }
    ensures rows { IfOk result (λ pieces. stream_of pieces.items ≡ ended (Some fault)) }
    ensures types { IfOk result (λ pieces. All (λ piece. types_of piece.batch ≡ types.now) pieces.items) }
    ensures few { IfOk result (λ pieces. All (λ piece. piece.batch.rows ≤ 65536) pieces.items) }
{
    let mut pieces = Vec::new(alloc);
    pieces.push(Piece {
        batch: join_batches(alloc, types, &[])?,
        end: Some(fault),
    })?;
    Ok(pieces)
}

// The rows of an operation over the rows of all inputs, which end there. Where they are few enough they are joined first.
fn taken_batches(
    alloc: Global,
    op: SetOp,
    types: &[Ty],
    runs: Vec<Batch>,
    ends: &[u64],
) -> Result<Vec<Batch>, NoMemory>
    requires kinds { All (λ ty. IsKind ty.kind) types.now }
    requires types { All (λ run. types_of run ≡ types.now) runs.items }
    requires ends { AreEnds 0 ends.now (length (all_rows runs.items)) }
    ensures rows { (inputs : List (List Row)) → (op ≢ ops.UnionAll) → all_rows runs.items ≡ flat_map (λ rows. rows) inputs → ends.now ≡ ends_from 0 inputs → IfOk result (λ batches. all_rows batches.items ≡ spec.set_in op inputs) }
    ensures types { IfOk result (λ batches. All (λ batch. types_of batch ≡ types.now) batches.items) }
    ensures few { IfOk result (λ batches. All (λ batch. batch.rows ≤ 65536) batches.items) }
{
    if !are_few(&runs) {
        return taken_of_runs(alloc, op, types, runs, ends);
    }
    let whole = join_batches(alloc, types, &runs)?;
    drop(runs);
    taken_of_one(alloc, op, whole, ends)
}

// The same where all rows stand in one batch.
fn taken_of_one(
    alloc: Global,
    op: SetOp,
    whole: Batch,
    ends: &[u64],
) -> Result<Vec<Batch>, NoMemory>
    requires { AreEnds 0 ends.now whole.rows }
    ensures rows { (inputs : List (List Row)) → (op ≢ ops.UnionAll) → rows_of whole ≡ flat_map (λ rows. rows) inputs → ends.now ≡ ends_from 0 inputs → IfOk result (λ batches. all_rows batches.items ≡ spec.set_in op inputs) }
    ensures types { IfOk result (λ batches. All (λ batch. types_of batch ≡ types_of whole) batches.items) }
    ensures few { IfOk result (λ batches. All (λ batch. batch.rows ≤ 65536) batches.items) }
{
    let keyed = OneBatch::of(alloc, whole)?;
    let chains = Chains::build(alloc, keyed)?;
    let numbers = chains.numbers(alloc, chains.keys())?;
    let (first, others) = first_input(op, ends);
    let rows = taken_rows(alloc, op, &chains, &numbers, first, others)?;
    gather_in_parts(alloc, &chains.keys().batch, &rows)
}

// The same where they stand in several batches.
fn taken_of_runs(
    alloc: Global,
    op: SetOp,
    types: &[Ty],
    runs: Vec<Batch>,
    ends: &[u64],
) -> Result<Vec<Batch>, NoMemory>
    requires types { All (λ run. types_of run ≡ types.now) runs.items }
    requires ends { AreEnds 0 ends.now (length (all_rows runs.items)) }
    ensures rows { (inputs : List (List Row)) → (op ≢ ops.UnionAll) → all_rows runs.items ≡ flat_map (λ rows. rows) inputs → ends.now ≡ ends_from 0 inputs → IfOk result (λ batches. all_rows batches.items ≡ spec.set_in op inputs) }
    ensures types { IfOk result (λ batches. All (λ batch. types_of batch ≡ types.now) batches.items) }
    ensures few { IfOk result (λ batches. All (λ batch. batch.rows ≤ 65536) batches.items) }
{
    let keyed = KeyedRows::of(alloc, runs, types.len())?;
    let chains = Chains::build(alloc, keyed)?;
    let numbers = chains.numbers(alloc, chains.keys())?;
    let (first, others) = first_input(op, ends);
    let rows = taken_rows(alloc, op, &chains, &numbers, first, others)?;
    chains.keys().batches_at(alloc, &rows)
}

// Where the first input ends, and where the others do. All inputs of UNION_DISTINCT count as the first.
fn first_input(op: SetOp, ends: &[u64]) -> (u64, &[u64])
    ensures first { result.0 ≡ first_end op ends.now }
    ensures others { result.1.now ≡ other_ends op ends.now }
{
    match (op, ends) {
        (SetOp::UnionDistinct, [.., last]) => (*last, &[]),
        (_, [first, others @ ..]) => (*first, others),
        (_, []) => (0, &[]),
    }
}
