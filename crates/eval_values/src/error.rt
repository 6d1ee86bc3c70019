// Why an expression has no value.
ghost use Rattle.std.specs.Prelude.{◌≡◌};
ghost use Rattle.eval_values.specs.declared.error.EvalError.TheVariants as errors;
ghost use Rattle.eval_values.specs.Gives.{Gives};

use std::alloc::{AllocError, AllocFailed};
use sub_types::{FaultKind, NoMemory, Value};

/// Why an expression has no value.
#[derive(Clone, Copy, Debug, PartialEq, Eq)]
pub enum EvalError {
    Fault(FaultKind),
    NoMemory,
}

impl From<FaultKind> for EvalError {
    ghost from_gives = { λ kind error. error ≡ errors.Fault kind };

    fn from(kind: FaultKind) -> EvalError {
        EvalError::Fault(kind)
    }
}

impl From<NoMemory> for EvalError {
    ghost from_gives = { λ _ error. error ≡ errors.NoMemory };

    fn from(_: NoMemory) -> EvalError {
        EvalError::NoMemory
    }
}

impl From<AllocError> for EvalError {
    ghost from_gives = { λ _ error. error ≡ errors.NoMemory };

    fn from(_: AllocError) -> EvalError {
        EvalError::NoMemory
    }
}

impl<T: Drop> From<AllocFailed<T>> for EvalError {
    ghost from_gives = { λ _ error. error ≡ errors.NoMemory };

    fn from(_: AllocFailed<T>) -> EvalError {
        EvalError::NoMemory
    }
}

/// What takes no memory, as what may find none.
pub(crate) fn settled(computed: Result<Value, FaultKind>) -> Result<Value, EvalError>
    ensures { Gives result computed }
{
    Ok(computed?)
}
