// Workers made of their seats and passes, and taken apart again.
ghost use Rattle.std.specs.Prelude.{◌≡◌, ◌+◌, ◌≤◌, [], ℕ, false, All, length, map, vec_len, IfOk};
ghost use Rattle.run_core.specs.Receipts.{lists_of};
ghost use Rattle.hand_off_tests.specs.Crew.{IsReady, IsDone, AreParts};

use crate::crew::Worker;
use crate::numbers::{Item, Numbers};
use hand_off::{HandOff, HandPass};
use run_core::Receipt;
use scan_claims::{ClaimSeat, Claims};
use std::alloc::Global;
use sub_types::NoMemory;

/// The seats, the passes and the receipts of workers that met the end.
#[derive(Drop)]
pub struct Parts {
    pub seats: Vec<ClaimSeat>,
    pub passes: Vec<HandPass<Item>>,
    pub receipts: Vec<Receipt>,
}

/// One worker for each seat and pass.
pub fn crew_of(
    alloc: Global,
    claims: &Claims,
    hand: &HandOff<Item>,
    mut seats: Vec<ClaimSeat>,
    mut passes: Vec<HandPass<Item>>,
) -> Result<Vec<Worker>, NoMemory>
    requires count { (vec_len passes ≡ vec_len seats) × (vec_len seats ≤ 64) }
    requires seats_of { All (λ s. s.of ≡ claims.now) seats.items }
    requires seats { All (λ s. (s.numbers ≡ []) × (s.ended ≡ false) × (s.share ≡ 1)) seats.items }
    requires passes_of { All (λ p. p.of ≡ hand.now) passes.items }
    requires passes { All (λ p. (p.offered ≡ []) × (p.taken ≡ []) × (p.share ≡ 1)) passes.items }
    ensures count { IfOk result (λ crew. vec_len crew ≡ vec_len seats) }
    ensures ready { IfOk result (λ crew. All (IsReady claims.now hand.now) crew.items) }
{
    let mut crew = Vec::with_capacity(alloc, seats.len())?;
    while let Some(seat) = seats.pop() {
        let Some(pass) = passes.pop() else {
            unreachable!()
        };
        let number = crew.len() as u32;
        crew.push_reserved(Worker {
            number,
            seat,
            pass,
            labour: Numbers::new(alloc),
            receipt: None,
        });
    }
    Ok(crew)
}

/// The parts of the workers, unless one of them found no memory.
pub fn parts_of(
    alloc: Global,
    claims: &Claims,
    hand: &HandOff<Item>,
    mut crew: Vec<Worker>,
) -> Result<Parts, NoMemory>
    requires { All (IsDone claims.now hand.now) crew.items }
    ensures count { IfOk result (λ p. (vec_len p.seats ≡ vec_len crew) × (vec_len p.passes ≡ vec_len crew)) }
    ensures parts { IfOk result (λ p. AreParts claims.now hand.now p.seats.items p.passes.items (map lists_of p.receipts.items)) }
{
    let mut seats = Vec::with_capacity(alloc, crew.len())?;
    let mut passes = Vec::with_capacity(alloc, crew.len())?;
    let mut receipts = Vec::with_capacity(alloc, crew.len())?;
    while let Some(worker) = crew.pop() {
        let Worker {
            number: _,
            seat,
            pass,
            labour: _,
            receipt,
        } = worker;
        let Some(receipt) = receipt else {
            return Err(NoMemory);
        };
        seats.push_reserved(seat);
        passes.push_reserved(pass);
        receipts.push_reserved(receipt);
    }
    Ok(Parts {
        seats,
        passes,
        receipts,
    })
}
