// The hand-off: a bounded queue that all passes share.
ghost use Rattle.std.specs.Prelude.{◌≡◌, ◌+◌, ◌-◌, ◌≤◌, ◌++◌, ◌∷◌, [], ℕ, List, All, vec_len, sum_by, IfOk, IfErr, OnOk, OnErr, IfSome, IfNone, OnSome};
ghost use Rattle.std.specs.Vec.{vec_capacity};
ghost use Rattle.crossbeam_queue.specs.Passes.{view, IsPassOf};
ghost use Rattle.hand_off.specs.Hand.{IsBeside, IsLeft, QueueHeld, TakesOffered};
ghost use Rattle.hand_off.specs.Rule.{fresh};

use crate::numbered::{Handed, Numbered};
use crate::pass::HandPass;
use crate::rest::HandRest;
use crate::rule::{Offer, OneMore, OneShare, Passed, PassedOn, Take, Together};
use crossbeam_queue::{Pass, RuledArrayQueue};
use scan_claims::Ticket;
use std::alloc::Global;
use std::marker::Model;
use std::sync::Wait;
use sub_types::NoMemory;

type Line<T> = RuledArrayQueue<T, Passed<T>, PassedOn>;

/// A bounded queue of items. Contracts see how many items it takes and how many passes it has.
#[derive(Drop)]
pub struct HandOff<T> {
    queue: Line<T>,
    passes: u64,
}

impl<T> Model for HandOff<T> {
    ghost use Rattle.std.specs.Prelude.{◌≡◌, ◌≤◌};
    ghost use Rattle.hand_off.specs.Hand.{Hand, hand_code};

    ghost Value = { Hand };

    ghost coded = { hand_code };

    ghost view = { λ h. record { table = h.queue.table.shared.table_id; capacity = h.queue.cap; passes = h.passes } };

    ghost invariant = { λ h. (h.queue.table.shared.table_id.slots ≡ h.queue.cap) × (1 ≤ h.queue.cap) × (1 ≤ h.passes) };
}

// The pass with so many shares, all there are.
fn grown<T>(line: &Line<T>, mut pass: Pass<T, Passed<T>>, passes: u32) -> Pass<T, Passed<T>>
    requires of { IsPassOf line.now pass }
    requires passes { 1 ≤ passes }
    requires first { view pass ≡ fresh 1 1 }
    ensures of { IsPassOf line.now result }
    ensures all { view result ≡ fresh passes passes }
{
    for _ in 1..passes {
        line.another::<OneMore>(&mut pass);
    }
    pass
}

impl<T: Numbered> HandOff<T> {
    /// An empty queue for `capacity` items, and so many passes, each with one share.
    pub fn new<H: Wait>(
        _rt: &H,
        alloc: Global,
        capacity: u32,
        passes: u32,
    ) -> Result<(HandOff<T>, Vec<HandPass<T>>), NoMemory>
        requires capacity { (1 ≤ capacity) × (capacity ≤ 1024) }
        requires passes { (1 ≤ passes) × (passes ≤ 64) }
        ensures hand { IfOk result (λ r. (r.0.capacity ≡ capacity) × (r.0.passes ≡ passes)) }
        ensures passes { IfOk result (λ r. vec_len r.1 ≡ passes) }
        ensures of { IfOk result (λ r. All (λ p. p.of ≡ r.0) r.1.items) }
        ensures whole { IfOk result (λ r. sum_by (λ p. p.share) r.1.items ≡ r.0.passes) }
        ensures fresh { IfOk result (λ r. All (λ p. (p.offered ≡ []) × (p.taken ≡ []) × (p.share ≡ 1)) r.1.items) }
    {
        let places = Vec::with_capacity(alloc, passes as usize)?;
        let (queue, pass) = Line::ruled(alloc, capacity as usize)?;
        let pass = grown(&queue, pass, passes);
        let hand = HandOff {
            queue,
            passes: u64::from(passes),
        };
        let places = hand.deal(places, HandPass { pass }, passes);
        Ok((hand, places))
    }

    // The first pass, which has all shares, dealt out to so many passes.
    fn deal(
        &self,
        mut places: Vec<HandPass<T>>,
        mut first: HandPass<T>,
        passes: u32,
    ) -> Vec<HandPass<T>>
        requires of { first.of ≡ self.now }
        requires whole { (1 ≤ passes) × (first.offered ≡ []) × (first.taken ≡ []) × (first.share ≡ passes) }
        requires room { (places.items ≡ []) × (passes ≤ vec_capacity places) }
        ensures passes { vec_len result ≡ passes }
        ensures of { All (λ p. p.of ≡ self.now) result.items }
        ensures whole { sum_by (λ p. p.share) result.items ≡ passes }
        ensures fresh { All (λ p. (p.offered ≡ []) × (p.taken ≡ []) × (p.share ≡ 1)) result.items }
    {
        for _ in 1..passes {
            places.push_reserved(self.split(&mut first));
        }
        places.push_reserved(first);
        places
    }

    // A new pass with one share of this one's.
    fn split(&self, pass: &mut HandPass<T>) -> HandPass<T>
        requires of { pass.old.of ≡ self.now }
        requires shares { 2 ≤ pass.old.share }
        ensures left { pass.new ≡ record pass.old { share = pass.old.share - 1 } }
        ensures right { result ≡ record { of = self.now; offered = []; taken = []; share = 1 } }
    {
        HandPass {
            pass: self.queue.another::<OneShare>(&mut pass.pass),
        }
    }

    // All that the other pass has goes to this one.
    fn join(&self, pass: &mut HandPass<T>, other: HandPass<T>)
        requires { (pass.old.of ≡ self.now) × (other.of ≡ self.now) }
        ensures { pass.new ≡ record { of = self.now; offered = pass.old.offered ++ other.offered; taken = pass.old.taken ++ other.taken; share = pass.old.share + other.share } }
    {
        let HandPass { pass: place } = other;
        self.queue.absorb::<Together>(&mut pass.pass, place);
    }

    /// Puts the item that was read for the ticket at the back of the queue. A full queue hands it back.
    pub fn offer<H: Wait>(
        &self,
        rt: &H,
        pass: &mut HandPass<T>,
        ticket: Ticket,
        item: T,
    ) -> Result<(), Handed<T>>
        requires of { pass.old.of ≡ self.now }
        requires number { T.number_of item ≡ ticket }
        ensures pass { (pass.new.of ≡ pass.old.of) × (pass.new.share ≡ pass.old.share) × (pass.new.taken ≡ pass.old.taken) }
        ensures offered { OnOk result (pass.new.offered ≡ pass.old.offered ++ item ∷ []) }

        // The same item comes back, only where the queue held as many items as it takes.
        ensures back { IfErr result (λ handed. handed ≡ item) }
        ensures refused { OnErr result (pass.new ≡ pass.old) }
        ensures full { OnErr result (QueueHeld self.now.capacity pass.old) }
        ensures capacity { 1 ≤ self.now.capacity }
    {
        drop(ticket);
        if let Err(item) = self.queue.push_as::<Offer, H>(rt, &mut pass.pass, item) {
            return Err(Handed { item });
        }
        Ok(())
    }

    /// Takes the item at the front of the queue, or `None` where it is empty.
    pub fn take<H: Wait>(&self, rt: &H, pass: &mut HandPass<T>) -> Option<Handed<T>>
        requires { pass.old.of ≡ self.now }
        ensures pass { (pass.new.of ≡ pass.old.of) × (pass.new.share ≡ pass.old.share) × (pass.new.offered ≡ pass.old.offered) }
        ensures taken { IfSome result (λ item. pass.new.taken ≡ pass.old.taken ++ item ∷ []) }
        ensures was_offered { OnSome result (TakesOffered pass.new) }

        // Nothing is taken, only where the queue held nothing.
        ensures none { IfNone result (pass.new ≡ pass.old) }
        ensures empty { IfNone result (QueueHeld 0 pass.old) }
    {
        let Some(item) = self.queue.pop_as::<Take, H>(rt, &mut pass.pass) else {
            return None;
        };
        Some(Handed { item })
    }

    // What the queue may hold beside the pass.
    fn look(&self, pass: &mut HandPass<T>)
        requires { pass.old.of ≡ self.now }
        ensures same { pass.new ≡ pass.old }
        ensures held { (items : List T) × IsBeside pass.old.offered pass.old.taken pass.old.share self.now.passes items }
    {
        self.queue.learn_as::<Take>(&mut pass.pass);
    }

    /// What is left in the queue. The passes are all passes of this queue.
    pub fn finish<H: Wait>(self, _rt: &H, mut passes: Vec<HandPass<T>>) -> HandRest<T>
        requires of { All (λ p. p.of ≡ self) passes.items }
        requires all { sum_by (λ p. p.share) passes.items ≡ self.passes }
        ensures offered { (f : T → ℕ) → sum_by f result.offered ≡ sum_by (λ p. sum_by f p.offered) passes.items }
        ensures taken { (f : T → ℕ) → sum_by f result.taken ≡ sum_by (λ p. sum_by f p.taken) passes.items }
        ensures left { IsLeft result.offered result.taken }
    {
        let Some(mut all) = passes.pop() else {
            unreachable!()
        };
        while let Some(pass) = passes.pop() {
            self.join(&mut all, pass);
        }
        self.look(&mut all);
        HandRest::of(self, all)
    }
}
