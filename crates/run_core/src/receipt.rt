// What one worker did.
ghost use Rattle.std.specs.Prelude.{◌≡◌, OnOk};
ghost use Rattle.run_core.specs.Receipts.{lists_of, no_lists};
ghost use Rattle.run_core.specs.Memory.{HasRoom};

use std::alloc::Global;
use sub_types::NoMemory;

/// The numbers that one worker claimed, offered to the queue, took from it and finished, each in order.
#[derive(Debug, Drop)]
pub struct Receipt {
    pub claimed: Vec<u64>,
    pub offered: Vec<u64>,
    pub taken: Vec<u64>,
    pub finished: Vec<u64>,
}

impl Receipt {
    /// Four empty lists.
    pub fn new(alloc: Global) -> Receipt
        ensures { lists_of result ≡ no_lists }
    {
        Receipt {
            claimed: Vec::new(alloc),
            offered: Vec::new(alloc),
            taken: Vec::new(alloc),
            finished: Vec::new(alloc),
        }
    }

    /// Makes room for one more number in each list.
    pub fn reserve(&mut self) -> Result<(), NoMemory>
        ensures lists { lists_of self.new ≡ lists_of self.old }
        ensures room { OnOk result (HasRoom self.new) }
    {
        self.claimed.reserve(1)?;
        self.offered.reserve(1)?;
        self.taken.reserve(1)?;
        self.finished.reserve(1)?;
        Ok(())
    }
}
