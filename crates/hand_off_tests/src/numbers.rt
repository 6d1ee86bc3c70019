// A labour over numbers: an item is its number, and it comes to itself.
ghost use Rattle.std.specs.Prelude.{◌≡◌, ◌≤◌, ◌++◌, ◌∷◌, [], ℕ, OnOk, OnErr, ⊤};

use hand_off::{Handed, Labour, Numbered};
use scan_claims::Ticket;
use std::alloc::Global;
use sub_types::NoMemory;

/// A number as an item, and as what it comes to.
#[derive(Debug, Drop)]
pub struct Item {
    pub number: u64,
}

impl Numbered for Item {
    ghost number_of = { λ item. item.number };

    fn number(&self) -> u64 {
        self.number
    }
}

/// The numbers that a worker loaded, and those that it worked.
#[derive(Debug, Drop)]
pub struct Numbers {
    loaded: Vec<u64>,
    worked: Vec<Item>,
}

impl Numbers {
    pub fn new(alloc: Global) -> Numbers {
        Numbers {
            loaded: Vec::new(alloc),
            worked: Vec::new(alloc),
        }
    }
}

impl Labour<Item> for Numbers {
    type Out = Item;

    type About = ();

    ghost use Rattle.std.specs.Prelude.{◌≡◌, ⊤};
    ghost use Rattle.std.proofs.Common.{sym};

    ghost about = { λ _. tt };

    ghost loaded = { λ numbers. numbers.loaded.items };

    ghost results = { λ numbers. numbers.worked.items };

    ghost failures = { λ _. 0 };

    ghost right = { λ _ _. ⊤ };

    ghost failed = { λ _ _. ⊥ };

    ghost fits = { λ _ item out. out.number ≡ item.number };

    fn load(&mut self, _alloc: Global, ticket: &Ticket) -> Result<Item, NoMemory> {
        let number = ticket.number();
        self.loaded.push(number)?;
        Ok(Item { number })
    }

    fn work(&mut self, _alloc: Global, item: Handed<Item>) -> Result<(), NoMemory>
        ensures loaded { self.new.loaded.items ≡ self.old.loaded.items }
        ensures worked { OnOk result (self.new.worked.items ≡ self.old.worked.items ++ item ∷ []) }
        ensures not_worked { OnErr result (self.new.worked.items ≡ self.old.worked.items) }
    {
        self.worked.push(item.into_inner())?;
        Ok(())
    }

    ghost same_number = { λ _ _ _ fit. fit };
}
