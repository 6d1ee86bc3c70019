// Set operations over what pipelines gathered.
ghost use Rattle.std.specs.Prelude.{◌≡◌, map, All, IfOk};
ghost use Rattle.batch.specs.BatchRows.{types_of};
ghost use Rattle.plan_denote.specs.Sets.{set_rows};
ghost use Rattle.set_rels.specs.Inputs.{stream_of};
ghost use Rattle.pipe_steps.specs.Ready.{IsFit};
ghost use Rattle.pipe_ends.specs.Given.{AreSetInputs};

use crate::ends::up_to_fault;
use batch::Piece;
use pipe_parts::are_kinds;
use plan_typed::SetOp;
use set_rels::set_op;
use std::alloc::Global;
use sub_types::{NoMemory, Ty};

/// The rows of a set operation over its inputs, each in pieces, with columns of these types, up to the fault that ends them. Types
/// of decimals that stand in no plan are `NoMemory`.
pub fn sets(
    alloc: Global,
    op: SetOp,
    types: &[Ty],
    inputs: Vec<Vec<Piece>>,
) -> Result<Vec<Piece>, NoMemory>
    requires over { AreSetInputs op types.now (map (λ input. input.items) inputs.items) }
    ensures stream { IfOk result (λ out. stream_of out.items ≡ set_rows op (map (λ input. stream_of input.items) inputs.items)) }
    ensures typed { IfOk result (λ out. All (λ piece. types_of piece.batch ≡ types.now) out.items) }
    ensures fit { IfOk result (λ out. All (λ piece. IsFit piece.batch) out.items) }
{
    if !are_kinds(types) {
        return Err(NoMemory);
    }
    let given = set_op(alloc, op, inputs, types)?;
    Ok(up_to_fault(given))
}
