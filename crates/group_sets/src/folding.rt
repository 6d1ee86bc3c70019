// A batch's rows go to what is known.
ghost use Rattle.std.specs.Prelude.{◌≡◌, None, Some, Ok, List, true, false, map, All, IfOk, IsErr};
ghost use Rattle.sub_types.specs.declared.fault.Fault.{Fault as Failure};
ghost use Rattle.sub_types.specs.Stream.{Stream, followed_by};
ghost use Rattle.sub_types.specs.Value.{Fits};
ghost use Rattle.well_typed.specs.ExprTyped.{IsTypedOver};
ghost use Rattle.well_typed.specs.WellTyped.{IsMeasureOver};
ghost use Rattle.plan_denote.specs.Aggregate.{Entry};
ghost use Rattle.batch.specs.BatchRows.{rows_of, stream_of_piece, types_of};
ghost use Rattle.set_states.specs.States.{measure_in};
ghost use Rattle.group_sets.specs.Folding.{IsRead, IsPart, AreTogether, many_next, or_end};
ghost use Rattle.group_sets.specs.States.{Holds, Stands, entries_by, fault_in_state, is_lost_state};
ghost use Rattle.group_sets.specs.declared.state.State.TheVariants as states;

use crate::state::{MAX_INPUT, State};
use batch::Piece;
use group_inputs::{Evaluated, inputs_of};
use plan_typed::TypedMeasure;
use rel_specs::SetSpec;
use set_inputs::{SetInputs, inputs_over_sets};
use set_states::Sets;
use std::alloc::Global;
use sub_types::{Fault, NoMemory};

impl State {
    /// The fault that it keeps.
    pub(crate) fn end(&self) -> Option<Fault>
        ensures { result ≡ fault_in_state self.now }
    {
        match self {
            State::Ended(fault) => Some(*fault),
            State::Known(_) => None,
            State::TooMany => None,
            State::Lost => None,
        }
    }
}

/// What is known of the rows so far and of a piece's rows. The measures are given as over all values too.
pub(crate) fn folded(
    alloc: Global,
    spec: &SetSpec,
    plain: &[TypedMeasure],
    state: State,
    input: &Piece,
) -> Result<State, NoMemory>
    requires stands { Stands spec.now state }
    requires groups { All (IsTypedOver (types_of input.now.batch)) spec.now.groups.items }
    requires plain { plain.now ≡ map measure_in spec.now.measures.items }
    requires measures { All (IsMeasureOver (types_of input.now.batch)) plain.now }
    requires fit { All (Fits (types_of input.now.batch)) (rows_of input.now.batch) }
    ensures together { IfOk result (λ next. AreTogether spec.now state (entries_by spec.now (stream_of_piece input.now)) next) }
    ensures found { IfOk result (λ next. is_lost_state next ≡ false) }
    ensures again { (fault : Failure) → fault_in_state state ≡ Some fault → result ≡ Ok state }
    ensures lost { is_lost_state state ≡ true → IsErr result }
{
    match state {
        State::Lost => Err(NoMemory),
        State::Ended(fault) => Ok(State::Ended(fault)),
        State::TooMany => {
            let next = many_folded(alloc, spec, plain, input)?;
            Ok(next)
        }
        State::Known(sets) => {
            let next = known_folded(alloc, spec, plain, sets, input)?;
            Ok(next)
        }
    }
}

/// Too many rows, and a piece's rows.
fn many_folded(
    alloc: Global,
    spec: &SetSpec,
    plain: &[TypedMeasure],
    input: &Piece,
) -> Result<State, NoMemory>
    requires groups { All (IsTypedOver (types_of input.now.batch)) spec.now.groups.items }
    requires plain { plain.now ≡ map measure_in spec.now.measures.items }
    requires measures { All (IsMeasureOver (types_of input.now.batch)) plain.now }
    requires fit { All (Fits (types_of input.now.batch)) (rows_of input.now.batch) }
    ensures together { IfOk result (λ next. AreTogether spec.now states.TooMany (entries_by spec.now (stream_of_piece input.now)) next) }
    ensures found { IfOk result (λ next. is_lost_state next ≡ false) }
{
    let found = read(alloc, spec, plain, input)?;
    Ok(many_after(found))
}

/// Too many rows, unless a piece ends in a fault.
fn many_after(found: Result<SetInputs, Fault>) -> State
    ensures { result ≡ many_next found }
{
    match found {
        Ok(_) => State::TooMany,
        Err(fault) => State::Ended(fault),
    }
}

/// The groups of each set, and a piece's rows.
fn known_folded(
    alloc: Global,
    spec: &SetSpec,
    plain: &[TypedMeasure],
    sets: Sets,
    input: &Piece,
) -> Result<State, NoMemory>
    requires stands { Stands spec.now (states.Known sets) }
    requires groups { All (IsTypedOver (types_of input.now.batch)) spec.now.groups.items }
    requires plain { plain.now ≡ map measure_in spec.now.measures.items }
    requires measures { All (IsMeasureOver (types_of input.now.batch)) plain.now }
    requires fit { All (Fits (types_of input.now.batch)) (rows_of input.now.batch) }
    ensures together { IfOk result (λ next. AreTogether spec.now (states.Known sets) (entries_by spec.now (stream_of_piece input.now)) next) }
    ensures found { IfOk result (λ next. is_lost_state next ≡ false) }
{
    let found = read(alloc, spec, plain, input)?;
    match found {
        Ok(given) => {
            let next = with_inputs(alloc, spec, sets, &given)?;
            Ok(next)
        }
        Err(fault) => Ok(State::Ended(fault)),
    }
}

/// The keys of a piece's rows and what the measures take of them, or the first fault, or else the piece's end.
fn read(
    alloc: Global,
    spec: &SetSpec,
    plain: &[TypedMeasure],
    input: &Piece,
) -> Result<Result<SetInputs, Fault>, NoMemory>
    requires groups { All (IsTypedOver (types_of input.now.batch)) spec.now.groups.items }
    requires plain { plain.now ≡ map measure_in spec.now.measures.items }
    requires measures { All (IsMeasureOver (types_of input.now.batch)) plain.now }
    requires fit { All (Fits (types_of input.now.batch)) (rows_of input.now.batch) }
    ensures { IfOk result (λ out. IsRead spec.now (stream_of_piece input.now) out) }
{
    let measures = spec.measures.as_slice();
    let found = inputs_of(alloc, spec.groups.as_slice(), plain, &input.batch)?;
    match found {
        Evaluated::Fault(kind) => Ok(Err(Fault {
            relation: spec.relation,
            kind,
        })),
        Evaluated::All(inputs) => {
            let given = inputs_over_sets(alloc, measures, inputs)?;
            Ok(unless_ended(given, input.end))
        }
    }
}

/// The inputs, unless their piece ends in a fault.
fn unless_ended(given: SetInputs, end: Option<Fault>) -> Result<SetInputs, Fault>
    ensures { result ≡ or_end end given }
{
    match end {
        Some(fault) => Err(fault),
        None => Ok(given),
    }
}

/// The groups of the rows so far and of a piece's rows, unless there are too many rows.
fn with_inputs(
    alloc: Global,
    spec: &SetSpec,
    sets: Sets,
    given: &SetInputs,
) -> Result<State, NoMemory>
    requires stands { Stands spec.now (states.Known sets) }
    requires part { (later : List Entry) × IsPart spec.now later given.now }
    ensures found { IfOk result (λ next. is_lost_state next ≡ false) }
    ensures holds { IfOk result (λ next. (s more : Stream Entry) → Holds spec.now s (states.Known sets) → more.end ≡ None → IsPart spec.now more.rows given.now → Holds spec.now (followed_by s more) next) }
{
    let too_many = given.batch.rows > MAX_INPUT - sets.rows;
    if too_many {
        return Ok(State::TooMany);
    }
    let grown = sets.with_inputs(
        alloc,
        spec.groups.len(),
        spec.sets.as_slice(),
        spec.measures.as_slice(),
        given,
    )?;
    Ok(State::Known(grown))
}
