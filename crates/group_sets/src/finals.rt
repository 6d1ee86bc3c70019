// The rows that grouping sets give.
ghost use Rattle.std.specs.Prelude.{◌≡◌, [], Some, false, IfOk};
ghost use Rattle.group_sets.specs.Finals.{AreFinal};
ghost use Rattle.group_sets.specs.States.{Stands, is_lost_state};
ghost use Rattle.group_sets.specs.declared.state.State.TheVariants as states;

use crate::state::State;
use rel_specs::SetSpec;
use set_rows::{Rows, sets_rows};
use set_states::Sets;
use std::alloc::Global;
use sub_types::{Fault, FaultKind, NoMemory};

/// The rows of all groups up to the first fault, or no rows and the fault that the rows so far have.
pub(crate) fn state_rows(alloc: Global, spec: &SetSpec, state: State) -> Result<Rows, NoMemory>
    requires { Stands spec.now state }
    ensures rows { IfOk result (λ out. AreFinal spec.now state out) }
    ensures found { IfOk result (λ out. is_lost_state state ≡ false) }
{
    match state {
        State::Lost => Err(NoMemory),
        State::Ended(fault) => Ok(no_rows(alloc, fault)),
        State::TooMany => Ok(no_rows(
            alloc,
            Fault {
                relation: spec.relation,
                kind: FaultKind::TooManyRows,
            },
        )),
        State::Known(sets) => {
            let rows = known_rows(alloc, spec, sets)?;
            Ok(rows)
        }
    }
}

/// The rows of all sets' groups up to the first fault.
fn known_rows(alloc: Global, spec: &SetSpec, sets: Sets) -> Result<Rows, NoMemory>
    requires { Stands spec.now (states.Known sets) }
    ensures { IfOk result (λ out. AreFinal spec.now (states.Known sets) out) }
{
    let rows = sets_rows(
        alloc,
        spec.relation,
        spec.groups.len(),
        spec.sets.as_slice(),
        spec.measures.as_slice(),
        sets,
    )?;
    Ok(rows)
}

fn no_rows(alloc: Global, fault: Fault) -> Rows
    ensures rows { result.rows.items ≡ [] }
    ensures end { result.end ≡ Some fault }
{
    Rows {
        rows: Vec::new(alloc),
        end: Some(fault),
    }
}
