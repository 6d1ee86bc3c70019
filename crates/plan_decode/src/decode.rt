// From the bytes of a plan to its tree.
ghost use Rattle.std.specs.Prelude.{◌≡◌, ℕ, Ok, Err, IfOk};
ghost use Rattle.plan_scan.specs.declared.flaw.Flaw.TheVariants as flaws;
ghost use Rattle.plan_parts.specs.Reader.{plan_of};

use crate::root::plan;
use plan_raw::PlanTree;
use plan_scan::{Flaw, Message};
use std::alloc::Global;
use std::error::Error;
use std::fmt;
use sub_types::NoMemory;

/// Why a plan has no tree.
#[derive(Clone, Copy, Debug, PartialEq, Eq)]
pub enum DecodeError {
    /// The bytes can't be read at this place, which is that of a record's key.
    Unreadable { place: u64 },
    /// The message of the record at this place is more than 100 messages deep.
    TooDeep { place: u64 },
    NoMemory,
}

impl fmt::Display for DecodeError {
    fn fmt<W: fmt::Write>(&self, f: &mut fmt::Formatter<W>) -> fmt::Result {
        match self {
            DecodeError::Unreadable { place } => write!(f, "plan unreadable at byte {place}"),
            DecodeError::TooDeep { place } => write!(f, "plan too deep at byte {place}"),
            DecodeError::NoMemory => f.write_str("no memory"),
        }
    }
}

impl Error for DecodeError {}

impl From<NoMemory> for DecodeError {
    ghost use Rattle.std.specs.Prelude.{◌≡◌};
    ghost use Rattle.plan_decode.specs.declared.decode.DecodeError.TheVariants.{NoMemory as without_memory};

    ghost from_gives = { λ _ error. error ≡ without_memory };

    fn from(_: NoMemory) -> Self {
        DecodeError::NoMemory
    }
}

impl From<Flaw> for DecodeError {
    ghost use Rattle.std.specs.Prelude.{◌≡◌};
    ghost use Rattle.plan_decode.specs.Refused.{refused};

    ghost from_gives = { λ flaw error. error ≡ refused flaw };

    fn from(flaw: Flaw) -> Self {
        match flaw {
            Flaw::Unreadable(place) => DecodeError::Unreadable {
                place: place as u64,
            },
            Flaw::TooDeep(place) => DecodeError::TooDeep {
                place: place as u64,
            },
        }
    }
}

/// The tree of a plan's bytes (Protocol Buffers encoding; Substrait's `Plan`). Of all flaws of the bytes the one with the
/// first place in the order of the bytes is answered.
pub fn decode_plan(alloc: Global, bytes: &[u8]) -> Result<PlanTree, DecodeError>
    ensures tree { IfOk result (λ tree. plan_of bytes.now ≡ Ok tree) }
    ensures unreadable { (place : ℕ) → result ≡ Err (DecodeError.Unreadable place) → plan_of bytes.now ≡ Err (flaws.Unreadable place) }
    ensures too_deep { (place : ℕ) → result ≡ Err (DecodeError.TooDeep place) → plan_of bytes.now ≡ Err (flaws.TooDeep place) }
{
    let message = Message::plan(bytes)?;
    Ok(plan(alloc, &message)?)
}
