// The machine's state in memory, and each of its events. Whether an event is allowed is tested here alone.
ghost use Rattle.std.specs.Prelude.{◌≡◌, ◌↔◌, IsTrue, Some, None, slice_get, MatchOption, OnOk, All, length, map};
ghost use Rattle.std.specs.Bool.{OnFalse};
ghost use Rattle.run_core.specs.Machine.{IsIdle, HoldsFresh, HoldsDue};
ghost use Rattle.run_core.specs.Receipts.{lists_of};
ghost use Rattle.run_core.specs.Memory.{machine_of, HasRoom, IsReady, Does};
ghost use Rattle.run_core.specs.declared.event.Event.TheVariants.{Claim, Put, Refuse, Take, Finish};
ghost use Rattle.run_core.specs.declared.event.Held.TheVariants.{Fresh, Due};

use crate::event::{Event, Held};
use crate::receipt::Receipt;
use std::collections::VecDeque;
use sub_types::NoMemory;

#[derive(Drop)]
pub struct State {
    pub count: u64,
    pub bound: u32,
    pub next: u64,
    pub queue: VecDeque<u64>,
    pub held: Vec<Option<Held>>,
    pub receipts: Vec<Receipt>,
}

// Makes room for one more number in each list.
fn reserve_lists(receipts: &mut [Receipt]) -> Result<(), NoMemory>
    ensures lists { map lists_of receipts.new ≡ map lists_of receipts.old }
    ensures room { OnOk result (All HasRoom receipts.new) }
{
    for receipt in receipts.iter_mut() {
        receipt.reserve()?;
    }
    Ok(())
}

impl State {
    /// Makes room for one event.
    pub fn reserve(&mut self) -> Result<(), NoMemory>
        requires { length self.old.held.items ≡ length self.old.receipts.items }
        ensures same { machine_of self.new ≡ machine_of self.old }
        ensures room { OnOk result (IsReady self.new) }
    {
        self.queue.reserve(1)?;
        reserve_lists(self.receipts.as_mut_slice())
    }

    fn is_idle(&self, worker: usize) -> bool
        ensures { IsTrue result ↔ IsIdle (machine_of self.now) worker }
    {
        matches!(self.held.get(worker), Some(None))
    }

    // The number that the worker holds fresh.
    fn fresh(&self, worker: usize) -> Option<u64>
        ensures { MatchOption result (¬ (HoldsFresh (machine_of self.now) worker)) (λ x. slice_get self.now.held.items worker ≡ Some (Some (Fresh x))) }
    {
        match self.held.get(worker) {
            Some(Some(Held::Fresh(number))) => Some(*number),
            _ => None,
        }
    }

    // The number that the worker has to work.
    fn due(&self, worker: usize) -> Option<u64>
        ensures { MatchOption result (¬ (HoldsDue (machine_of self.now) worker)) (λ x. slice_get self.now.held.items worker ≡ Some (Some (Due x))) }
    {
        match self.held.get(worker) {
            Some(Some(Held::Due(number))) => Some(*number),
            _ => None,
        }
    }

    fn claim(&mut self, worker: u32) -> bool
        requires { IsReady self.old }
        ensures done { Does result (Claim worker) (machine_of self.old) (machine_of self.new) }
        ensures refused { OnFalse result (IsReady self.new) }
    {
        let at = worker as usize;
        if self.next >= self.count || !self.is_idle(at) {
            return false;
        }
        let number = self.next;
        self.held[at] = Some(Held::Fresh(number));
        self.receipts[at].claimed.push_reserved(number);
        self.next = number + 1;
        true
    }

    fn put(&mut self, worker: u32) -> bool
        requires { IsReady self.old }
        ensures done { Does result (Put worker) (machine_of self.old) (machine_of self.new) }
        ensures refused { OnFalse result (IsReady self.new) }
    {
        let at = worker as usize;
        let Some(number) = self.fresh(at) else {
            return false;
        };
        if self.queue.len() >= self.bound as usize {
            return false;
        }
        self.held[at] = None;
        self.receipts[at].offered.push_reserved(number);
        self.queue.push_back_reserved(number);
        true
    }

    fn refuse(&mut self, worker: u32) -> bool
        requires { IsReady self.old }
        ensures done { Does result (Refuse worker) (machine_of self.old) (machine_of self.new) }
        ensures refused { OnFalse result (IsReady self.new) }
    {
        let at = worker as usize;
        let Some(number) = self.fresh(at) else {
            return false;
        };
        if self.queue.len() != self.bound as usize {
            return false;
        }
        self.held[at] = Some(Held::Due(number));
        true
    }

    fn take(&mut self, worker: u32) -> bool
        requires { IsReady self.old }
        ensures done { Does result (Take worker) (machine_of self.old) (machine_of self.new) }
        ensures refused { OnFalse result (IsReady self.new) }
    {
        let at = worker as usize;
        if !self.is_idle(at) {
            return false;
        }
        let Some(number) = self.queue.pop_front() else {
            return false;
        };
        self.held[at] = Some(Held::Due(number));
        self.receipts[at].taken.push_reserved(number);
        true
    }

    fn finish(&mut self, worker: u32) -> bool
        requires { IsReady self.old }
        ensures done { Does result (Finish worker) (machine_of self.old) (machine_of self.new) }
        ensures refused { OnFalse result (IsReady self.new) }
    {
        let at = worker as usize;
        let Some(number) = self.due(at) else {
            return false;
        };
        self.held[at] = None;
        self.receipts[at].finished.push_reserved(number);
        true
    }

    /// Does the event where it is allowed, and answers whether it is.
    pub fn step(&mut self, event: Event) -> bool
        requires { IsReady self.old }
        ensures done { Does result event (machine_of self.old) (machine_of self.new) }
        ensures refused { OnFalse result (IsReady self.new) }
    {
        match event {
            Event::Claim { worker } => self.claim(worker),
            Event::Put { worker } => self.put(worker),
            Event::Refuse { worker } => self.refuse(worker),
            Event::Take { worker } => self.take(worker),
            Event::Finish { worker } => self.finish(worker),
        }
    }
}
