// What is left in the queue once all passes are back.
ghost use Rattle.std.specs.Prelude.{◌≡◌, ◌≤◌, ◌++◌, ◌∷◌, [], ℕ, sum_by, IfSome, IfNone, OnSome};
ghost use Rattle.hand_off.specs.Hand.{IsSameBag};

use crate::hand::HandOff;
use crate::numbered::{Handed, Numbered};
use crate::pass::HandPass;
use std::marker::Model;
use std::sync::Wait;

/// What is left in the queue, with all that was offered and taken.
#[derive(Drop)]
pub struct HandRest<T> {
    hand: HandOff<T>,
    pass: HandPass<T>,
}

impl<T> Model for HandRest<T> {
    ghost use Rattle.std.specs.Prelude.{◌≡◌};
    ghost use Rattle.hand_off.specs.Hand.{RestView, rest_code};

    ghost Value = { RestView T };

    ghost coded = { rest_code T.code };

    ghost view = { λ r. record { offered = r.pass.offered; taken = r.pass.taken } };

    ghost invariant = { λ r. (r.pass.of ≡ r.hand) × (r.pass.share ≡ r.hand.passes) };
}

impl<T: Numbered> HandRest<T> {
    // The pass has all shares.
    pub(crate) fn of(hand: HandOff<T>, pass: HandPass<T>) -> HandRest<T>
        requires { (pass.of ≡ hand) × (pass.share ≡ hand.passes) }
        ensures { result ≡ record { offered = pass.offered; taken = pass.taken } }
    {
        HandRest { hand, pass }
    }

    /// One item that is left, or `None` once all of them are given.
    pub fn next<H: Wait>(&mut self, rt: &H) -> Option<Handed<T>>
        ensures offered { self.new.offered ≡ self.old.offered }
        ensures given { IfSome result (λ item. self.new.taken ≡ self.old.taken ++ item ∷ []) }
        ensures was_left { OnSome result ((f : T → ℕ) → sum_by f self.new.taken ≤ sum_by f self.new.offered) }
        ensures none { IfNone result (self.new ≡ self.old) }
        ensures all { IfNone result (IsSameBag self.old.offered self.old.taken) }
    {
        self.hand.take(rt, &mut self.pass)
    }
}
