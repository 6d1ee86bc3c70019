// A batch's rows go to what is known.
ghost use Rattle.std.specs.Prelude.{◌≡◌, ◌<◌, None, Some, Ok, true, false, length, All, IfOk, IsErr};
ghost use Rattle.sub_types.specs.declared.fault.Fault.{Fault as Failure};
ghost use Rattle.sub_types.specs.Stream.{Stream, followed_by};
ghost use Rattle.sub_types.specs.Value.{Fits};
ghost use Rattle.well_typed.specs.ExprTyped.{IsTypedOver};
ghost use Rattle.well_typed.specs.WellTyped.{IsMeasureOver};
ghost use Rattle.plan_denote.specs.Aggregate.{Entry};
ghost use Rattle.batch.specs.BatchRows.{rows_of, stream_of_piece, types_of};
ghost use Rattle.group_columns.specs.Columns.{IsWhole};
ghost use Rattle.aggregate.specs.Folding.{IsRead, IsPart, AreTogether, many_next, or_end};
ghost use Rattle.aggregate.specs.States.{Holds, Stands, entries_by, fault_in_state, is_lost_state};
ghost use Rattle.aggregate.specs.declared.state.State.TheVariants as states;

use crate::state::{MAX_INPUT, State};
use batch::Piece;
use group_inputs::{Evaluated, Inputs, inputs_of};
use group_states::Groups;
use rel_specs::AggSpec;
use std::alloc::Global;
use sub_types::{Fault, NoMemory};

impl State {
    /// The fault that it keeps.
    pub(crate) fn end(&self) -> Option<Fault>
        ensures { result ≡ fault_in_state self.now }
    {
        match self {
            State::Ended(fault) => Some(*fault),
            State::Known(_) => None,
            State::TooMany => None,
            State::Lost => None,
        }
    }
}

/// What is known of the rows so far and of a piece's rows.
pub(crate) fn folded(
    alloc: Global,
    spec: &AggSpec,
    state: State,
    input: &Piece,
) -> Result<State, NoMemory>
    requires stands { Stands spec.now state }
    requires groups { All (IsTypedOver (types_of input.now.batch)) spec.now.groups.items }
    requires measures { All (IsMeasureOver (types_of input.now.batch)) spec.now.measures.items }
    requires fit { All (Fits (types_of input.now.batch)) (rows_of input.now.batch) }
    ensures together { IfOk result (λ next. AreTogether spec.now state (entries_by spec.now (stream_of_piece input.now)) next) }
    ensures found { IfOk result (λ next. is_lost_state next ≡ false) }
    ensures again { (fault : Failure) → fault_in_state state ≡ Some fault → result ≡ Ok state }
    ensures lost { is_lost_state state ≡ true → IsErr result }
{
    match state {
        State::Lost => Err(NoMemory),
        State::Ended(fault) => Ok(State::Ended(fault)),
        State::TooMany => {
            let next = many_folded(alloc, spec, input)?;
            Ok(next)
        }
        State::Known(groups) => {
            let next = known_folded(alloc, spec, groups, input)?;
            Ok(next)
        }
    }
}

/// Too many rows, and a piece's rows.
fn many_folded(alloc: Global, spec: &AggSpec, input: &Piece) -> Result<State, NoMemory>
    requires groups { All (IsTypedOver (types_of input.now.batch)) spec.now.groups.items }
    requires measures { All (IsMeasureOver (types_of input.now.batch)) spec.now.measures.items }
    requires fit { All (Fits (types_of input.now.batch)) (rows_of input.now.batch) }
    ensures together { IfOk result (λ next. AreTogether spec.now states.TooMany (entries_by spec.now (stream_of_piece input.now)) next) }
    ensures found { IfOk result (λ next. is_lost_state next ≡ false) }
{
    let found = read(alloc, spec, input)?;
    Ok(many_after(found))
}

/// Too many rows, unless a piece ends in a fault.
fn many_after(found: Result<Inputs, Fault>) -> State
    ensures { result ≡ many_next found }
{
    match found {
        Ok(_) => State::TooMany,
        Err(fault) => State::Ended(fault),
    }
}

/// Groups, and a piece's rows.
fn known_folded(
    alloc: Global,
    spec: &AggSpec,
    groups: Groups,
    input: &Piece,
) -> Result<State, NoMemory>
    requires stands { Stands spec.now (states.Known groups) }
    requires groups { All (IsTypedOver (types_of input.now.batch)) spec.now.groups.items }
    requires measures { All (IsMeasureOver (types_of input.now.batch)) spec.now.measures.items }
    requires fit { All (Fits (types_of input.now.batch)) (rows_of input.now.batch) }
    ensures together { IfOk result (λ next. AreTogether spec.now (states.Known groups) (entries_by spec.now (stream_of_piece input.now)) next) }
    ensures found { IfOk result (λ next. is_lost_state next ≡ false) }
{
    let found = read(alloc, spec, input)?;
    match found {
        Ok(inputs) => {
            let next = with_inputs(alloc, spec, groups, &inputs)?;
            Ok(next)
        }
        Err(fault) => Ok(State::Ended(fault)),
    }
}

/// The keys of a piece's rows and what the measures take of them, or the first fault, or else the piece's end.
fn read(alloc: Global, spec: &AggSpec, input: &Piece) -> Result<Result<Inputs, Fault>, NoMemory>
    requires groups { All (IsTypedOver (types_of input.now.batch)) spec.now.groups.items }
    requires measures { All (IsMeasureOver (types_of input.now.batch)) spec.now.measures.items }
    requires fit { All (Fits (types_of input.now.batch)) (rows_of input.now.batch) }
    ensures { IfOk result (λ out. IsRead spec.now (stream_of_piece input.now) out) }
{
    let found = inputs_of(
        alloc,
        spec.groups.as_slice(),
        spec.measures.as_slice(),
        &input.batch,
    )?;
    match found {
        Evaluated::Fault(kind) => Ok(Err(Fault {
            relation: spec.relation,
            kind,
        })),
        Evaluated::All(inputs) => Ok(unless_ended(inputs, input.end)),
    }
}

/// The inputs, unless their piece ends in a fault.
fn unless_ended(inputs: Inputs, end: Option<Fault>) -> Result<Inputs, Fault>
    ensures { result ≡ or_end end inputs }
{
    match end {
        Some(fault) => Err(fault),
        None => Ok(inputs),
    }
}

/// The groups of the rows so far and of a piece's rows, unless there are too many rows.
fn with_inputs(
    alloc: Global,
    spec: &AggSpec,
    groups: Groups,
    inputs: &Inputs,
) -> Result<State, NoMemory>
    requires stands { Stands spec.now (states.Known groups) }
    requires columns { All (λ column. column < length inputs.now.keys.columns.items) inputs.now.columns.items }
    requires all { length inputs.now.taken.items ≡ length spec.now.measures.items }
    requires whole { All (IsWhole inputs.now.keys.rows) inputs.now.taken.items }
    ensures found { IfOk result (λ next. is_lost_state next ≡ false) }
    ensures holds { IfOk result (λ next. (s more : Stream Entry) → Holds spec.now s (states.Known groups) → more.end ≡ None → IsPart spec.now more.rows inputs.now → Holds spec.now (followed_by s more) next) }
{
    let too_many = inputs.keys.rows > MAX_INPUT - groups.rows;
    if too_many {
        return Ok(State::TooMany);
    }
    let grown = groups.with_batch(
        alloc,
        &inputs.keys,
        inputs.columns.as_slice(),
        inputs.taken.as_slice(),
    )?;
    Ok(State::Known(grown))
}
