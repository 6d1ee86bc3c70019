// Reads: the rows of a table are tested, then filtered, and then columns are taken.
ghost use Rattle.std.specs.Prelude.{◌≡◌, IfOk, length};
ghost use Rattle.std.specs.List.{All};
ghost use Rattle.std.specs.Option.{option_or};
ghost use Rattle.sub_types.specs.Stream.{each};
ghost use Rattle.sub_types.specs.Value.{Fits};
ghost use Rattle.well_typed.specs.Columns.{columns_at};
ghost use Rattle.well_typed.specs.WellTyped.{AreBelow, IsConditionOver, MayBe};
ghost use Rattle.plan_denote.specs.Denote.{maybe_condition};
ghost use Rattle.plan_denote.specs.Filter.{filtered};
ghost use Rattle.plan_denote.specs.Read.{read_rows};
ghost use Rattle.batch.specs.BatchRows.{rows_of, stream_of_piece, types_of};
ghost use Rattle.table_rows.specs.Read.{kinds_of, read_row};
ghost use Rattle.pipe_steps.specs.Ready.{IsFit};

use batch::Piece;
use plan_typed::Expr;
use row_ops::{filter, keep};
use std::alloc::Global;
use sub_types::{Fault, NoMemory, Ty};
use table_rows::check_batch;

/// The rows of a read relation, by the types of its columns, its filter, and the columns of its mask.
pub(crate) fn read(
    alloc: Global,
    relation: u32,
    types: &[Ty],
    condition: &Option<Expr>,
    mask: &[u32],
    input: Piece,
) -> Result<Piece, NoMemory>
    requires kinds { kinds_of (types_of input.batch) ≡ kinds_of types.now }
    requires filter { MayBe (IsConditionOver types.now) condition.now }
    requires places { AreBelow (length types.now) mask.now }
    ensures stream { IfOk result (λ out. stream_of_piece out ≡ read_rows relation types.now (maybe_condition condition.now) mask.now (stream_of_piece input)) }
    ensures types { IfOk result (λ out. types_of out.batch ≡ columns_at types.now mask.now) }
    ensures fit { IfOk result (λ out. IsFit out.batch) }
{
    let tested = tested(alloc, relation, types, input)?;
    let chosen = chosen(alloc, relation, condition, tested)?;
    let kept = keep(alloc, mask, chosen)?;
    Ok(kept)
}

// The rows up to the first that doesn't fit the types.
fn tested(alloc: Global, relation: u32, types: &[Ty], input: Piece) -> Result<Piece, NoMemory>
    requires { kinds_of (types_of input.batch) ≡ kinds_of types.now }
    ensures stream { IfOk result (λ out. stream_of_piece out ≡ each (read_row relation types.now) (stream_of_piece input)) }
    ensures types { IfOk result (λ out. types_of out.batch ≡ types.now) }
    ensures fit { IfOk result (λ out. All (Fits types.now) (rows_of out.batch)) }
{
    let Piece { batch, end } = input;
    let Piece { batch, end: fault } = check_batch(alloc, relation, types, batch)?;
    Ok(Piece {
        batch,
        end: first_end(fault, end),
    })
}

// The first of two faults.
fn first_end(first: Option<Fault>, then: Option<Fault>) -> Option<Fault>
    ensures { result ≡ option_or first then }
{
    match first {
        Some(fault) => Some(fault),
        None => then,
    }
}

// The rows at which the condition is true, if there is one.
fn chosen(
    alloc: Global,
    relation: u32,
    condition: &Option<Expr>,
    input: Piece,
) -> Result<Piece, NoMemory>
    requires condition { MayBe (IsConditionOver (types_of input.batch)) condition.now }
    requires fit { IsFit input.batch }
    ensures stream { IfOk result (λ out. stream_of_piece out ≡ filtered relation (maybe_condition condition.now) (stream_of_piece input)) }
    ensures types { IfOk result (λ out. types_of out.batch ≡ types_of input.batch) }
{
    match condition {
        Some(condition) => filter(alloc, condition, relation, input),
        None => Ok(input),
    }
}
