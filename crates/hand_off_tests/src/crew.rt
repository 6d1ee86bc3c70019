// One worker over the claims and the hand-off.
use crate::numbers::{Item, Numbers};
use hand_off::{HandOff, HandPass, work_all};
use run_core::Receipt;
use scan_claims::{ClaimSeat, Claims};
use std::alloc::Global;
use std::sync::Wait;
use world::Gate;

/// One worker: its place at the claims and at the hand-off, its labour, and its receipt once it has met the end.
#[derive(Drop)]
pub struct Worker {
    pub number: u32,
    pub seat: ClaimSeat,
    pub pass: HandPass<Item>,
    pub labour: Numbers,
    pub receipt: Option<Receipt>,
}

impl Worker {
    ghost use Rattle.hand_off_tests.specs.Crew.{IsReady, IsDone};

    // Claims, offers and works until nothing is left. Without memory it has no receipt.
    pub fn work<H: Wait, G: Gate>(
        &mut self,
        rt: &H,
        alloc: Global,
        claims: &Claims,
        hand: &HandOff<Item>,
        gate: &G,
    )
        requires { IsReady claims.now hand.now self.old }
        ensures { IsDone claims.now hand.now self.new }
    {
        let worked = work_all(
            rt,
            alloc,
            claims,
            &mut self.seat,
            hand,
            &mut self.pass,
            &mut self.labour,
            gate,
            self.number,
        );
        let Ok(receipt) = worked else {
            self.receipt = None;
            return;
        };
        self.receipt = Some(receipt);
    }
}
