// The loop of one worker: it claims numbers, loads and offers their items, and works what it takes or keeps.
ghost use Rattle.std.specs.Prelude.{◌≡◌, ◌+◌, ◌≤◌, ◌<◌, ◌++◌, ◌∷◌, [], ℕ, List, true, false, length, map, All, vec_len, IfOk, IfErr, OnOk, OnErr};
ghost use Rattle.std.specs.Vec.{vec_capacity};
ghost use Rattle.run_core.specs.Receipts.{lists_of, no_lists, OffersOwn, FinishesOwn};
ghost use Rattle.run_core.specs.Memory.{HasRoom};
ghost use Rattle.scan_claims.specs.Claims.{SeatView};
ghost use Rattle.hand_off.specs.Hand.{QueueHeld};
ghost use Rattle.hand_off.specs.Work.{Point, point, Gained, HoldsSoFar, IsSound, IsWorked, Came};

use crate::hand::HandOff;
use crate::labour::Labour;
use crate::numbered::{Handed, Numbered};
use crate::pass::HandPass;
use run_core::Receipt;
use scan_claims::{ClaimSeat, Claims, Ticket};
use std::alloc::Global;
use std::sync::Wait;
use sub_types::NoMemory;
use world::Gate;

// Works the item and notes its number as finished.
fn work_item<T: Numbered, L: Labour<T>>(
    alloc: Global,
    labour: &mut L,
    receipt: &mut Receipt,
    item: Handed<T>,
) -> Result<(), NoMemory>
    requires { vec_len receipt.old.finished < vec_capacity receipt.old.finished }
    ensures about { L.about labour.new ≡ L.about labour.old }
    ensures failures { L.failures labour.old ≤ L.failures labour.new }
    ensures loaded { L.loaded labour.new ≡ L.loaded labour.old }
    ensures worked { OnOk result (
        (out : L.Out) × (L.results labour.new ≡ L.results labour.old ++ out ∷ []) × L.fits (L.about labour.old) item out) }
    ensures noted { OnOk result (
        lists_of receipt.new ≡ record (lists_of receipt.old) { finished = receipt.old.finished.items ++ T.number_of item ∷ [] }) }
    ensures not_worked { OnErr result (L.results labour.new ≡ L.results labour.old) }
{
    let number = item.number();
    labour.work(alloc, item)?;
    receipt.finished.push_reserved(number);
    Ok(())
}

// Takes one item and works it, and answers whether there was one.
fn take_one<H: Wait, T: Numbered, L: Labour<T>>(
    rt: &H,
    alloc: Global,
    hand: &HandOff<T>,
    pass: &mut HandPass<T>,
    labour: &mut L,
    receipt: &mut Receipt,
) -> Result<bool, NoMemory>
    requires { pass.old.of ≡ hand.now }
    ensures of { pass.new.of ≡ pass.old.of }
    ensures came { IfOk result (λ _.
        (seat : SeatView) (start : Point T L.Out L.About) (ahead : ℕ) → ahead ≤ 1
        → Came T.number_of L.Out.number_of L.right L.failed L.fits start
        (point seat pass.old (L.about labour.old)
        (L.loaded labour.old) (L.results labour.old) (L.failures labour.old) (lists_of receipt.old)) ahead
        → Came T.number_of L.Out.number_of L.right L.failed L.fits start
        (point seat pass.new (L.about labour.new)
        (L.loaded labour.new) (L.results labour.new) (L.failures labour.new) (lists_of receipt.new)) 0) }
    ensures holds { OnErr result (
        (seat : SeatView) (start : Point T L.Out L.About)
        → HoldsSoFar start
        (point seat pass.old (L.about labour.old)
        (L.loaded labour.old) (L.results labour.old) (L.failures labour.old) (lists_of receipt.old))
        → HoldsSoFar start
        (point seat pass.new (L.about labour.new)
        (L.loaded labour.new) (L.results labour.new) (L.failures labour.new) (lists_of receipt.new))) }
{
    receipt.reserve()?;
    let Some(item) = hand.take(rt, pass) else {
        return Ok(false);
    };
    receipt.taken.push_reserved(item.number());
    work_item(alloc, labour, receipt, item)?;
    Ok(true)
}

// Offers the item and notes its number, unless the queue hands it back.
fn offer_one<H: Wait, T: Numbered>(
    rt: &H,
    hand: &HandOff<T>,
    pass: &mut HandPass<T>,
    receipt: &mut Receipt,
    ticket: Ticket,
    item: T,
) -> Result<(), Handed<T>>
    requires of { pass.old.of ≡ hand.now }
    requires number { T.number_of item ≡ ticket }
    requires room { vec_len receipt.old.offered < vec_capacity receipt.old.offered }
    ensures pass { (pass.new.of ≡ pass.old.of) × (pass.new.share ≡ pass.old.share) × (pass.new.taken ≡ pass.old.taken) }
    ensures offered { OnOk result (pass.new.offered ≡ pass.old.offered ++ item ∷ []) }
    ensures noted { OnOk result (
        lists_of receipt.new ≡ record (lists_of receipt.old) { offered = receipt.old.offered.items ++ ticket ∷ [] }) }
    ensures back { IfErr result (λ handed. handed ≡ item) }
    ensures refused { OnErr result ((pass.new ≡ pass.old) × (receipt.new ≡ receipt.old)) }
    ensures full { OnErr result ((1 ≤ hand.now.capacity) × QueueHeld hand.now.capacity pass.old) }
{
    let number = ticket.number();
    if let Err(item) = hand.offer(rt, pass, ticket, item) {
        return Err(item);
    }
    receipt.offered.push_reserved(number);
    Ok(())
}

// Claims one number, loads its item and offers it. It works the item where the queue is full, and takes one where it isn't.
fn claim_one<H: Wait, T: Numbered, L: Labour<T>, G: Gate>(
    rt: &H,
    alloc: Global,
    claims: &Claims,
    seat: &mut ClaimSeat,
    hand: &HandOff<T>,
    pass: &mut HandPass<T>,
    labour: &mut L,
    gate: &G,
    worker: u32,
    receipt: &mut Receipt,
) -> Result<bool, NoMemory>
    requires seat { seat.old.of ≡ claims.now }
    requires pass { pass.old.of ≡ hand.now }
    ensures ended { IfOk result (λ more. more ≡ false → seat.new.ended ≡ true) }
    ensures came { IfOk result (λ _.
        (start : Point T L.Out L.About)
        → Came T.number_of L.Out.number_of L.right L.failed L.fits start
        (point seat.old pass.old (L.about labour.old)
        (L.loaded labour.old) (L.results labour.old) (L.failures labour.old) (lists_of receipt.old)) 0
        → Came T.number_of L.Out.number_of L.right L.failed L.fits start
        (point seat.new pass.new (L.about labour.new)
        (L.loaded labour.new) (L.results labour.new) (L.failures labour.new) (lists_of receipt.new)) 0) }
    ensures holds { OnErr result (
        (start : Point T L.Out L.About)
        → HoldsSoFar start
        (point seat.old pass.old (L.about labour.old)
        (L.loaded labour.old) (L.results labour.old) (L.failures labour.old) (lists_of receipt.old))
        → HoldsSoFar start
        (point seat.new pass.new (L.about labour.new)
        (L.loaded labour.new) (L.results labour.new) (L.failures labour.new) (lists_of receipt.new))) }
{
    receipt.reserve()?;
    let Some(ticket) = claims.claim(seat) else {
        return Ok(false);
    };
    let number = ticket.number();
    gate.before(worker, number);
    let item = labour.load(alloc, &ticket)?;
    receipt.claimed.push_reserved(number);
    if let Err(item) = offer_one(rt, hand, pass, receipt, ticket, item) {
        work_item(alloc, labour, receipt, item)?;
        return Ok(true);
    }
    take_one(rt, alloc, hand, pass, labour, receipt)?;
    Ok(true)
}

// Claims one number after the other until none is left.
fn claim_all<H: Wait, T: Numbered, L: Labour<T>, G: Gate>(
    rt: &H,
    alloc: Global,
    claims: &Claims,
    seat: &mut ClaimSeat,
    hand: &HandOff<T>,
    pass: &mut HandPass<T>,
    labour: &mut L,
    gate: &G,
    worker: u32,
    receipt: &mut Receipt,
) -> Result<(), NoMemory>
    requires seat { seat.old.of ≡ claims.now }
    requires pass { pass.old.of ≡ hand.now }
    requires start { lists_of receipt.old ≡ no_lists }
    ensures ended { OnOk result (seat.new.ended ≡ true) }
    ensures came { OnOk result (
        Came T.number_of L.Out.number_of L.right L.failed L.fits
        (point seat.old pass.old (L.about labour.old)
        (L.loaded labour.old) (L.results labour.old) (L.failures labour.old) (lists_of receipt.old))
        (point seat.new pass.new (L.about labour.new)
        (L.loaded labour.new) (L.results labour.new) (L.failures labour.new) (lists_of receipt.new)) 0) }
    ensures holds { HoldsSoFar
        (point seat.old pass.old (L.about labour.old)
        (L.loaded labour.old) (L.results labour.old) (L.failures labour.old) (lists_of receipt.old))
        (point seat.new pass.new (L.about labour.new)
        (L.loaded labour.new) (L.results labour.new) (L.failures labour.new) (lists_of receipt.new)) }
{
    for _ in rt.forever() {
        let claimed = claim_one(
            rt, alloc, claims, seat, hand, pass, labour, gate, worker, receipt,
        );
        match claimed {
            Ok(true) => {}
            Ok(false) => return Ok(()),
            Err(error) => return Err(error),
        }
    }
    unreachable!()
}

// Takes one item after the other until none is there.
fn take_all<H: Wait, T: Numbered, L: Labour<T>>(
    rt: &H,
    alloc: Global,
    hand: &HandOff<T>,
    pass: &mut HandPass<T>,
    labour: &mut L,
    receipt: &mut Receipt,
) -> Result<(), NoMemory>
    requires { pass.old.of ≡ hand.now }
    ensures came { OnOk result ((seat : SeatView) (start : Point T L.Out L.About)
        → Came T.number_of L.Out.number_of L.right L.failed L.fits start
        (point seat pass.old (L.about labour.old)
        (L.loaded labour.old) (L.results labour.old) (L.failures labour.old) (lists_of receipt.old)) 0
        → Came T.number_of L.Out.number_of L.right L.failed L.fits start
        (point seat pass.new (L.about labour.new)
        (L.loaded labour.new) (L.results labour.new) (L.failures labour.new) (lists_of receipt.new)) 0) }
    ensures holds { OnErr result (
        (seat : SeatView) (start : Point T L.Out L.About)
        → Came T.number_of L.Out.number_of L.right L.failed L.fits start
        (point seat pass.old (L.about labour.old)
        (L.loaded labour.old) (L.results labour.old) (L.failures labour.old) (lists_of receipt.old)) 0
        → HoldsSoFar start
        (point seat pass.new (L.about labour.new)
        (L.loaded labour.new) (L.results labour.new) (L.failures labour.new) (lists_of receipt.new))) }
{
    for _ in rt.forever() {
        let taken = take_one(rt, alloc, hand, pass, labour, receipt);
        match taken {
            Ok(true) => {}
            Ok(false) => return Ok(()),
            Err(error) => return Err(error),
        }
    }
    unreachable!()
}

/// The loop of one worker. It claims numbers until none is left; each item it loads and offers to the queue, and it
/// works one that it takes, or its own where the queue is full. Then it takes until it finds the queue empty.
pub fn work_all<H: Wait, T: Numbered, L: Labour<T>, G: Gate>(
    rt: &H,
    alloc: Global,
    claims: &Claims,
    seat: &mut ClaimSeat,
    hand: &HandOff<T>,
    pass: &mut HandPass<T>,
    labour: &mut L,
    gate: &G,
    worker: u32,
) -> Result<Receipt, NoMemory>
    requires seat { seat.old.of ≡ claims.now }
    requires pass { pass.old.of ≡ hand.now }

    // Seat, pass and labour hold what they held and what was done so far, also without memory.
    ensures holds { HoldsSoFar
        (point seat.old pass.old (L.about labour.old)
        (L.loaded labour.old) (L.results labour.old) (L.failures labour.old) no_lists)
        (point seat.new pass.new (L.about labour.new)
        (L.loaded labour.new) (L.results labour.new) (L.failures labour.new) no_lists) }

    // The receipt has what the seat, the pass and the labour gained.
    ensures ended { OnOk result (seat.new.ended ≡ true) }
    ensures claimed { IfOk result (λ r. seat.new.numbers ≡ seat.old.numbers ++ r.claimed.items) }
    ensures loaded { IfOk result (λ r. L.loaded labour.new ≡ L.loaded labour.old ++ r.claimed.items) }
    ensures offered { IfOk result (λ r.
        Gained pass.old.offered pass.new.offered (λ items.
        (r.offered.items ≡ map T.number_of items)
        × All (IsSound L.right L.failed (L.about labour.old) (L.failures labour.old) (L.failures labour.new)) items)) }
    ensures finished { IfOk result (λ r.
        Gained pass.old.taken pass.new.taken (λ items.
        (r.taken.items ≡ map T.number_of items)
        × Gained (L.results labour.old) (L.results labour.new) (λ outs.
        (r.finished.items ≡ map L.Out.number_of outs)
        × All (IsWorked L.right L.failed L.fits (L.about labour.old) items (L.failures labour.old) (L.failures labour.new)) outs))) }

    // What it offered it had claimed, and what it took, or claimed and didn't offer, it finished.
    ensures own { IfOk result (λ r. OffersOwn (lists_of r) × FinishesOwn (lists_of r)) }
    ensures alone { IfOk result (λ r.
        pass.old.share ≡ hand.now.passes → length pass.old.offered ≡ length pass.old.taken → r.offered.items ≡ r.claimed.items) }
{
    let mut receipt = Receipt::new(alloc);
    let claimed = claim_all(
        rt,
        alloc,
        claims,
        seat,
        hand,
        pass,
        labour,
        gate,
        worker,
        &mut receipt,
    );
    if let Err(error) = claimed {
        return Err(error);
    }
    if let Err(error) = take_all(rt, alloc, hand, pass, labour, &mut receipt) {
        return Err(error);
    }
    Ok(receipt)
}
