// A worker's pass to the hand-off.

use crate::rule::Passed;
use crossbeam_queue::Pass;
use std::marker::Model;

/// A worker's pass to the hand-off. Contracts see the items that it offered and took, and its share.
#[derive(Drop)]
pub struct HandPass<T> {
    pub(crate) pass: Pass<T, Passed<T>>,
}

impl<T> Model for HandPass<T> {
    ghost use Rattle.hand_off.specs.Hand.{PassView, pass_code};

    ghost Value = { PassView T };

    ghost coded = { pass_code T.code };

    ghost use Rattle.hand_off.specs.Passes.{view_of, IsPass};

    ghost view = { λ p. view_of p.pass };

    ghost invariant = { λ p. IsPass p.pass };
}
