// The machine behind its invariant.
ghost use Rattle.std.specs.Prelude.{◌≡◌, ◌↔◌, ◌≤◌, map, IsTrue, IfOk, OnOk, OnErr, replicate};
ghost use Rattle.std.specs.Bool.{OnTrue, OnFalse};
ghost use Rattle.run_core.specs.Receipts.{lists_of, no_lists, IsBalanced};
ghost use Rattle.run_core.specs.Machine.{start, IsAllowed, after, Keeps, IsOver};

use crate::event::{Event, Held};
use crate::receipt::Receipt;
use crate::state::State;
use std::alloc::Global;
use std::collections::VecDeque;
use std::marker::Model;
use sub_types::NoMemory;

/// The machine of one run. Contracts see its state, and `spare`, for how many steps it has room.
#[derive(Drop)]
pub struct Run {
    state: State,
    spare: u32,
}

impl Model for Run {
    ghost use Rattle.run_core.specs.Memory.{machine_of};
    ghost use Rattle.run_core.specs.Ready.{Ready, IsSound};

    ghost Value = { Ready };

    ghost view = { λ r. record { machine = machine_of r.state; spare = r.spare } };

    ghost invariant = { λ r. IsSound r.state r.spare };
}

// So many receipts with empty lists.
fn empty_receipts(alloc: Global, count: usize) -> Result<Vec<Receipt>, NoMemory>
    ensures { IfOk result (λ v. map lists_of v.items ≡ replicate count no_lists) }
{
    let mut receipts = Vec::new(alloc);
    for _ in 0..count {
        receipts.push(Receipt::new(alloc))?;
    }
    Ok(receipts)
}

impl Run {
    /// Nothing is claimed yet.
    pub fn new(alloc: Global, n: u64, workers: u32, bound: u32) -> Result<Run, NoMemory>
        ensures { IfOk result (λ run. run.machine ≡ start n workers bound) }
    {
        let count = workers as usize;
        let receipts = empty_receipts(alloc, count)?;
        let held: Vec<Option<Held>> = Vec::from_elem(alloc, None, count)?;
        Ok(Run {
            state: State {
                count: n,
                bound,
                next: 0,
                queue: VecDeque::new(alloc),
                held,
                receipts,
            },
            spare: 0,
        })
    }

    /// Makes room for one step at least.
    pub fn reserve(&mut self) -> Result<(), NoMemory>
        ensures machine { self.new.machine ≡ self.old.machine }
        ensures room { OnOk result (1 ≤ self.new.spare) }
        ensures err { OnErr result (self.new ≡ self.old) }
    {
        if self.spare == 0 {
            self.state.reserve()?;
            self.spare = 1;
        }
        Ok(())
    }

    /// Does the event where it is allowed, and answers whether it is. A step takes no memory.
    pub fn step(&mut self, event: Event) -> bool
        requires { 1 ≤ self.old.spare }
        ensures allowed { IsTrue result ↔ IsAllowed self.old.machine event }
        ensures done { OnTrue result (self.new.machine ≡ after self.old.machine event) }
        ensures refused { OnFalse result (self.new ≡ self.old) }
    {
        let done = self.state.step(event);
        if done {
            self.spare = 0;
        }
        done
    }

    /// The workers' lists, and what every state keeps of them.
    pub fn receipts(&self) -> &[Receipt]
        ensures lists { map lists_of result.now ≡ self.now.machine.receipts }
        ensures kept { Keeps self.now.machine }
        ensures balanced { IsOver self.now.machine → IsBalanced self.now.machine.count self.now.machine.receipts self.now.machine.queue }
    {
        &self.state.receipts
    }
}
