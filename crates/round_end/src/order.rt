// The first number, in order, at which a read or the work failed decides.
ghost use Rattle.std.specs.Prelude.{◌≡◌, Err, None, Some, map, IfOk};
ghost use Rattle.round_end.specs.Decided.{decided, settled_seen};

use crate::outcome::{Outcome, Settled};
use pipe_labour::Item;
use std::alloc::Global;
use world::FolderError;

/// What counts of outcomes in order: what was made up to the first fault, which is in it, or a failed read where one
/// stands before the first fault.
pub fn settle<M: Drop>(
    alloc: Global,
    outs: Vec<Item<Outcome<M>>>,
) -> Result<Settled<M>, FolderError>
    ensures settled { IfOk result (λ settled. decided (map (λ out. out.value) outs.items) ≡ Some (settled_seen settled)) }
    ensures failed { result ≡ Err FolderError.Failed → decided (map (λ out. out.value) outs.items) ≡ None }
{
    let mut made = Vec::new(alloc);
    for out in outs {
        let Item { number: _, value } = out;
        match value {
            Outcome::Made(one) => made.push(one)?,
            Outcome::Ended(one, fault) => {
                made.push(one)?;
                return Ok(Settled {
                    made,
                    end: Some(fault),
                });
            }
            Outcome::ReadFault => return Err(FolderError::Failed),
        }
    }
    Ok(Settled { made, end: None })
}
