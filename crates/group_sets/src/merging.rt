// What is known of some rows and of the rows behind them.
ghost use Rattle.std.specs.Prelude.{◌≡◌, Some, Ok, true, false, IfOk, IsErr};
ghost use Rattle.sub_types.specs.declared.fault.Fault.{Fault as Failure};
ghost use Rattle.group_sets.specs.Folding.{AreMerged, many_and};
ghost use Rattle.group_sets.specs.States.{Stands, fault_in_state, is_lost_state, is_spent_state};
ghost use Rattle.group_sets.specs.declared.state.State.TheVariants as states;

use crate::state::{MAX_INPUT, State};
use rel_specs::SetSpec;
use set_states::Sets;
use std::alloc::Global;
use sub_types::NoMemory;

/// What is known of both. The first fault stays.
pub(crate) fn merged(
    alloc: Global,
    spec: &SetSpec,
    state: State,
    later: State,
) -> Result<State, NoMemory>
    requires stands { Stands spec.now state }
    requires later { Stands spec.now later }
    ensures merged { IfOk result (λ both. AreMerged spec.now state later both) }
    ensures kept { (fault : Failure) → fault_in_state state ≡ Some fault → result ≡ Ok state }
    ensures ended { (fault : Failure) → is_spent_state state ≡ false → fault_in_state later ≡ Some fault → result ≡ Ok (states.Ended fault) }
    ensures lost { is_lost_state state ≡ true → IsErr result }
    ensures later_lost { is_spent_state state ≡ false → is_lost_state later ≡ true → IsErr result }
{
    match state {
        State::Lost => Err(NoMemory),
        State::Ended(fault) => Ok(State::Ended(fault)),
        State::TooMany => {
            let both = many_merged(later)?;
            Ok(both)
        }
        State::Known(sets) => {
            let both = known_merged(alloc, spec, sets, later)?;
            Ok(both)
        }
    }
}

/// Too many rows, and later ones.
fn many_merged(later: State) -> Result<State, NoMemory>
    ensures both { IfOk result (λ both. both ≡ many_and later) }
    ensures ended { (fault : Failure) → fault_in_state later ≡ Some fault → result ≡ Ok (states.Ended fault) }
    ensures lost { is_lost_state later ≡ true → IsErr result }
{
    match later {
        State::Lost => Err(NoMemory),
        State::Ended(fault) => Ok(State::Ended(fault)),
        State::TooMany => Ok(State::TooMany),
        State::Known(_) => Ok(State::TooMany),
    }
}

/// Sets, and what is known of later rows.
fn known_merged(alloc: Global, spec: &SetSpec, sets: Sets, later: State) -> Result<State, NoMemory>
    requires stands { Stands spec.now (states.Known sets) }
    requires later { Stands spec.now later }
    ensures merged { IfOk result (λ both. AreMerged spec.now (states.Known sets) later both) }
    ensures ended { (fault : Failure) → fault_in_state later ≡ Some fault → result ≡ Ok (states.Ended fault) }
    ensures lost { is_lost_state later ≡ true → IsErr result }
{
    match later {
        State::Lost => Err(NoMemory),
        State::Ended(fault) => Ok(State::Ended(fault)),
        State::TooMany => Ok(State::TooMany),
        State::Known(others) => {
            let both = sets_merged(alloc, spec, sets, &others)?;
            Ok(both)
        }
    }
}

/// The sets of both, unless there are too many rows.
fn sets_merged(alloc: Global, spec: &SetSpec, sets: Sets, later: &Sets) -> Result<State, NoMemory>
    requires stands { Stands spec.now (states.Known sets) }
    requires later { Stands spec.now (states.Known later.now) }
    ensures { IfOk result (λ both. AreMerged spec.now (states.Known sets) (states.Known later.now) both) }
{
    let too_many = later.rows > MAX_INPUT - sets.rows;
    if too_many {
        return Ok(State::TooMany);
    }
    let both = sets.with_later(alloc, spec.measures.as_slice(), later)?;
    Ok(State::Known(both))
}
