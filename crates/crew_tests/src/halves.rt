// A source of numbers, and a work that halves them.
ghost use Rattle.std.specs.Prelude.{◌≡◌, []};

use pipe_labour::{Source, Work};
use std::alloc::Global;
use sub_types::NoMemory;

/// Gives each number itself.
#[derive(Debug, Drop)]
pub struct Numbers {
    loaded: Vec<u64>,
}

impl Numbers {
    pub fn new(alloc: Global) -> Numbers
        ensures { result.loaded.items ≡ [] }
    {
        Numbers {
            loaded: Vec::new(alloc),
        }
    }
}

impl Source for Numbers {
    type Given = u64;

    type About = ();

    ghost use Rattle.std.specs.Prelude.{◌≡◌};

    ghost about = { λ _. tt };

    ghost loaded = { λ numbers. numbers.loaded.items };

    ghost failures = { λ _. 0 };

    ghost gives = { λ _ number value. value ≡ number };

    ghost fails = { λ _ _ _. ⊥ };

    fn read(&mut self, _alloc: Global, number: u64) -> Result<u64, NoMemory> {
        self.loaded.push(number)?;
        Ok(number)
    }
}

/// Halves a number.
#[derive(Clone, Copy, Debug)]
pub struct Half;

impl Work<u64> for Half {
    type Made = u64;

    type Sense = ();

    ghost use Rattle.std.specs.Prelude.{◌≡◌, ◌/◌};

    ghost sense = { λ _. tt };

    ghost makes = { λ _ _ value made. made ≡ value / 2 };

    fn make(&self, _alloc: Global, _number: u64, value: u64) -> Result<u64, NoMemory> {
        Ok(value / 2)
    }
}
