// The end of a round: what the workers left is worked, and the outcomes are put in order.
ghost use Rattle.std.specs.Prelude.{◌≡◌, ◌≤◌, ℕ, true, All, length, map, sum_by, vec_len, IfOk, OnOk};
ghost use Rattle.std.specs.List.{range_with_len};
ghost use Rattle.run_core.specs.Counts.{times, once_below};
ghost use Rattle.run_core.specs.Receipts.{lists_of, IsBalanced};
ghost use Rattle.crew.specs.Labours.{labour_view};
ghost use Rattle.crew_round.specs.Ended.{HaveEnded};
ghost use Rattle.crew_round.specs.Fair.{IsFair};

use crate::outcomes::outcomes;
use crate::rest::work_rest_by_last;
use crate::round::Round;
use crew::{Gives, Parts};
use hand_off::{HandOff, Numbered};
use scan_claims::Claims;
use std::alloc::Global;
use std::sync::Wait;
use sub_types::NoMemory;

// Where each worker has a receipt, the rest is worked and the outcomes are collected.
pub(crate) fn close_round<H: Wait, T: Numbered, L: Gives<T>>(
    rt: &H,
    alloc: Global,
    claims: Claims,
    hand: HandOff<T>,
    parts: Parts<T>,
    labours: &mut Vec<L>,
) -> Result<Round<L::Out>, NoMemory>
    requires some { 1 ≤ vec_len labours.old }
    requires ended { parts.complete ≡ true
        → HaveEnded T.number_of L.Out.number_of L.right L.failed L.fits
        (λ l. labour_view (L.about l) (L.loaded l) (L.results l) (L.failures l))
        claims hand parts.seats.items parts.passes.items (map lists_of parts.receipts.items) labours.old.items }
    ensures about { map L.about labours.new.items ≡ map L.about labours.old.items }
    ensures workers { IfOk result (λ r. vec_len r.receipts ≡ vec_len labours.old) }
    ensures balanced { IfOk result (λ r. IsBalanced claims.count (map lists_of r.receipts.items) r.left.items) }
    ensures loaded { OnOk result ((x : ℕ) → sum_by (λ l. times x (L.loaded l)) labours.new.items ≡ once_below x claims.count) }
    ensures numbers { IfOk result (λ r. map L.Out.number_of r.outs.items ≡ range_with_len 0 claims.count) }
    ensures fair { IfOk result (λ r.
        (a : L.About) → All (λ l. L.about l ≡ a) labours.old.items
        → All (IsFair L.right L.failed L.fits a (sum_by L.failures labours.new.items)) r.outs.items) }
{
    let Parts {
        seats,
        passes,
        receipts,
        complete,
    } = parts;
    if !complete {
        return Err(NoMemory);
    }
    let _drawn = claims.finish(seats);
    let rest = hand.finish(rt, passes);
    let left = work_rest_by_last(rt, alloc, rest, labours)?;
    let outs = outcomes(alloc, labours)?;
    Ok(Round {
        receipts,
        left,
        outs,
    })
}
