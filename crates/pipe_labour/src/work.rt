// What is made of a value.
ghost use Rattle.std.specs.Prelude.{ℕ, IfOk};

use std::alloc::Global;
use std::marker::Send;
use sub_types::NoMemory;

/// What a worker does with a value that was read.
pub trait Work<G> {
    /// What it makes. What can't be computed is part of it.
    type Made: Send + Drop;

    /// What the clause on what is made speaks of.
    type Sense;

    ghost sense: { Self → Self.Sense };

    /// What may be made of a value with this number.
    ghost makes: { Self.Sense → ℕ → G → Self.Made → Type 0 };

    fn make(&self, alloc: Global, number: u64, value: G) -> Result<Self::Made, NoMemory>
        ensures { IfOk result (λ made. makes (sense self.now) number value made) };
}
