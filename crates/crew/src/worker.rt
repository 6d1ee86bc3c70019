// One worker over the claims and the hand-off.
ghost use Rattle.std.specs.Prelude.{◌≡◌};
ghost use Rattle.crew.specs.Labours.{labour_view};

use hand_off::{HandOff, HandPass, Labour, Numbered, work_all};
use run_core::Receipt;
use scan_claims::{ClaimSeat, Claims};
use std::alloc::Global;
use std::sync::Wait;
use world::Gate;

/// One worker: its number, its place at the claims and at the hand-off, its labour, and its receipt once it has met
/// the end.
#[derive(Drop)]
pub struct Worker<T, L> {
    pub number: u32,
    pub seat: ClaimSeat,
    pub pass: HandPass<T>,
    pub labour: L,
    pub receipt: Option<Receipt>,
}

impl<T: Numbered, L: Labour<T>> Worker<T, L> {
    ghost use Rattle.crew.specs.Workers.{IsReady, IsDone};

    // Claims, offers and works until nothing is left. Without memory it has no receipt.
    pub(crate) fn work<H: Wait, G: Gate>(
        &mut self,
        rt: &H,
        alloc: Global,
        claims: &Claims,
        hand: &HandOff<T>,
        gate: &G,
    )
        requires { IsReady (λ l. labour_view (L.about l) (L.loaded l) (L.results l) (L.failures l)) claims.now hand.now self.old }
        ensures { IsDone T.number_of L.Out.number_of L.right L.failed L.fits
            (λ l. labour_view (L.about l) (L.loaded l) (L.results l) (L.failures l)) claims.now hand.now self.old self.new }
    {
        let worked = work_all(
            rt,
            alloc,
            claims,
            &mut self.seat,
            hand,
            &mut self.pass,
            &mut self.labour,
            gate,
            self.number,
        );
        let Ok(receipt) = worked else {
            self.receipt = None;
            return;
        };
        self.receipt = Some(receipt);
    }
}
