// What is known of some rows and of the rows behind them.
ghost use Rattle.std.specs.Prelude.{◌≡◌, Some, Ok, true, false, IfOk, IsErr};
ghost use Rattle.sub_types.specs.declared.fault.Fault.{Fault as Failure};
ghost use Rattle.aggregate.specs.Folding.{AreMerged, many_and};
ghost use Rattle.aggregate.specs.States.{Stands, fault_in_state, is_lost_state, is_spent_state};
ghost use Rattle.aggregate.specs.declared.state.State.TheVariants as states;

use crate::state::{MAX_INPUT, State};
use group_states::Groups;
use rel_specs::AggSpec;
use std::alloc::Global;
use sub_types::NoMemory;

/// What is known of both. The first fault stays.
pub(crate) fn merged(
    alloc: Global,
    spec: &AggSpec,
    state: State,
    later: State,
) -> Result<State, NoMemory>
    requires stands { Stands spec.now state }
    requires later { Stands spec.now later }
    ensures merged { IfOk result (λ both. AreMerged spec.now state later both) }
    ensures kept { (fault : Failure) → fault_in_state state ≡ Some fault → result ≡ Ok state }
    ensures ended { (fault : Failure) → is_spent_state state ≡ false → fault_in_state later ≡ Some fault → result ≡ Ok (states.Ended fault) }
    ensures lost { is_lost_state state ≡ true → IsErr result }
    ensures later_lost { is_spent_state state ≡ false → is_lost_state later ≡ true → IsErr result }
{
    match state {
        State::Lost => Err(NoMemory),
        State::Ended(fault) => Ok(State::Ended(fault)),
        State::TooMany => {
            let both = many_merged(later)?;
            Ok(both)
        }
        State::Known(groups) => {
            let both = known_merged(alloc, spec, groups, later)?;
            Ok(both)
        }
    }
}

/// Too many rows, and later ones.
fn many_merged(later: State) -> Result<State, NoMemory>
    ensures both { IfOk result (λ both. both ≡ many_and later) }
    ensures ended { (fault : Failure) → fault_in_state later ≡ Some fault → result ≡ Ok (states.Ended fault) }
    ensures lost { is_lost_state later ≡ true → IsErr result }
{
    match later {
        State::Lost => Err(NoMemory),
        State::Ended(fault) => Ok(State::Ended(fault)),
        State::TooMany => Ok(State::TooMany),
        State::Known(_) => Ok(State::TooMany),
    }
}

/// Groups, and what is known of later rows.
fn known_merged(
    alloc: Global,
    spec: &AggSpec,
    groups: Groups,
    later: State,
) -> Result<State, NoMemory>
    requires stands { Stands spec.now (states.Known groups) }
    requires later { Stands spec.now later }
    ensures merged { IfOk result (λ both. AreMerged spec.now (states.Known groups) later both) }
    ensures ended { (fault : Failure) → fault_in_state later ≡ Some fault → result ≡ Ok (states.Ended fault) }
    ensures lost { is_lost_state later ≡ true → IsErr result }
{
    match later {
        State::Lost => Err(NoMemory),
        State::Ended(fault) => Ok(State::Ended(fault)),
        State::TooMany => Ok(State::TooMany),
        State::Known(others) => {
            let both = groups_merged(alloc, spec, groups, &others)?;
            Ok(both)
        }
    }
}

/// The groups of both, unless there are too many rows.
fn groups_merged(
    alloc: Global,
    spec: &AggSpec,
    groups: Groups,
    later: &Groups,
) -> Result<State, NoMemory>
    requires stands { Stands spec.now (states.Known groups) }
    requires later { Stands spec.now (states.Known later.now) }
    ensures { IfOk result (λ both. AreMerged spec.now (states.Known groups) (states.Known later.now) both) }
{
    let too_many = later.rows > MAX_INPUT - groups.rows;
    if too_many {
        return Ok(State::TooMany);
    }
    let both = groups.with_later(alloc, later)?;
    Ok(State::Known(both))
}
