// Workers made of their parts, and taken apart again.
ghost use Rattle.std.specs.Prelude.{◌≡◌, ◌+◌, ◌≤◌, ◌<◌, ◌++◌, ◌∷◌, [], ℕ, true, false, All, Option, IsSome, length, map, reverse, vec_len, IfOk};
ghost use Rattle.std.specs.List.{range_with_len};
ghost use Rattle.std.specs.Vec.{vec_capacity};
ghost use Rattle.run_core.specs.Receipts.{lists_of};
ghost use Rattle.crew.specs.Labours.{labour_view, IsFresh};
ghost use Rattle.crew.specs.Workers.{IsReady, lists_in};
ghost use Rattle.crew.specs.Room.{IsRoomFor};

use crate::worker::Worker;
use hand_off::{HandOff, HandPass, Labour, Numbered};
use run_core::Receipt;
use scan_claims::{ClaimSeat, Claims};
use std::alloc::Global;
use sub_types::NoMemory;

/// The seats, the passes and the receipts of workers, and whether each of them had a receipt.
#[derive(Drop)]
pub struct Parts<T> {
    pub seats: Vec<ClaimSeat>,
    pub passes: Vec<HandPass<T>>,
    pub receipts: Vec<Receipt>,
    pub complete: bool,
}

impl<T: Numbered> Parts<T> {
    /// Room for the parts of so many workers.
    pub fn with_capacity(alloc: Global, workers: usize) -> Result<Parts<T>, NoMemory>
        ensures { IfOk result (IsRoomFor workers) }
    {
        let seats = Vec::with_capacity(alloc, workers)?;
        let passes = Vec::with_capacity(alloc, workers)?;
        let receipts = Vec::with_capacity(alloc, workers)?;
        Ok(Parts {
            seats,
            passes,
            receipts,
            complete: true,
        })
    }
}

/// One worker for each seat, pass and labour, from the last to the first, numbered from 0 on. `room` has a place for
/// each of them.
pub fn workers_of<T: Numbered, L: Labour<T>>(
    claims: &Claims,
    hand: &HandOff<T>,
    mut seats: Vec<ClaimSeat>,
    mut passes: Vec<HandPass<T>>,
    labours: &mut Vec<L>,
    room: Vec<Worker<T, L>>,
) -> Vec<Worker<T, L>>
    requires count { (vec_len seats ≡ vec_len labours.old) × (vec_len passes ≡ vec_len labours.old) × (vec_len labours.old ≤ 64) }
    requires room { (room.items ≡ []) × (vec_len labours.old ≤ vec_capacity room) }
    requires seats_of { All (λ s. s.of ≡ claims.now) seats.items }
    requires seats { All (λ s. (s.numbers ≡ []) × (s.ended ≡ false) × (s.share ≡ 1)) seats.items }
    requires passes_of { All (λ p. p.of ≡ hand.now) passes.items }
    requires passes { All (λ p. (p.offered ≡ []) × (p.taken ≡ []) × (p.share ≡ 1)) passes.items }
    requires fresh { All (IsFresh (λ l. labour_view (L.about l) (L.loaded l) (L.results l) (L.failures l))) labours.old.items }
    ensures emptied { (labours.new.items ≡ []) × (vec_capacity labours.new ≡ vec_capacity labours.old) }
    ensures moved { reverse (map (λ w. w.labour) result.items) ≡ labours.old.items }
    ensures numbers { map (λ w. w.number) result.items ≡ range_with_len 0 (vec_len labours.old) }
    ensures ready { All (IsReady (λ l. labour_view (L.about l) (L.loaded l) (L.results l) (L.failures l)) claims.now hand.now) result.items }
{
    let mut workers = room;
    while let Some(labour) = labours.pop() {
        let Some(seat) = seats.pop() else {
            unreachable!()
        };
        let Some(pass) = passes.pop() else {
            unreachable!()
        };
        let number = workers.len() as u32;
        workers.push_reserved(Worker {
            number,
            seat,
            pass,
            labour,
            receipt: None,
        });
    }
    workers
}

// Adds the receipt. It answers whether all receipts are there so far.
fn note_receipt(receipts: &mut Vec<Receipt>, receipt: Option<Receipt>, complete: bool) -> bool
    requires { vec_len receipts.old < vec_capacity receipts.old }
    ensures before { result ≡ true → complete ≡ true }
    ensures some { result ≡ true → IsSome receipt }
    ensures noted { result ≡ true → map lists_of receipts.new.items ≡ map lists_of receipts.old.items ++ lists_in receipt ∷ [] }
    ensures len { vec_len receipts.new ≤ vec_len receipts.old + 1 }
    ensures capacity { vec_capacity receipts.new ≡ vec_capacity receipts.old }
{
    let Some(receipt) = receipt else {
        return false;
    };
    receipts.push_reserved(receipt);
    complete
}

/// The parts of the workers, from the last to the first. The labours are back in their places, also where a worker
/// has no receipt.
pub fn parts_of<T: Numbered, L: Labour<T> + Drop>(
    mut workers: Vec<Worker<T, L>>,
    room: Parts<T>,
    labours: &mut Vec<L>,
) -> Parts<T>
    requires room { IsRoomFor (vec_len workers) room }
    requires labours { (labours.old.items ≡ []) × (vec_len workers ≤ vec_capacity labours.old) }
    ensures labours { labours.new.items ≡ reverse (map (λ w. w.labour) workers.items) }
    ensures capacity { vec_capacity labours.new ≡ vec_capacity labours.old }
    ensures seats { result.seats.items ≡ reverse (map (λ w. w.seat) workers.items) }
    ensures passes { result.passes.items ≡ reverse (map (λ w. w.pass) workers.items) }
    ensures receipts { result.complete ≡ true → map lists_of result.receipts.items ≡ reverse (map (λ w. lists_in w.receipt) workers.items) }
    ensures complete { result.complete ≡ true → All (λ w. IsSome w.receipt) workers.items }
{
    let Parts {
        mut seats,
        mut passes,
        mut receipts,
        complete: _,
    } = room;
    let mut complete = true;
    while let Some(worker) = workers.pop() {
        let Worker {
            number: _,
            seat,
            pass,
            labour,
            receipt,
        } = worker;
        labours.push_reserved(labour);
        seats.push_reserved(seat);
        passes.push_reserved(pass);
        complete = note_receipt(&mut receipts, receipt, complete);
    }
    Parts {
        seats,
        passes,
        receipts,
        complete,
    }
}
