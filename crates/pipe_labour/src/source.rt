// What a worker reads.
ghost use Rattle.std.specs.Prelude.{◌≡◌, ◌≤◌, ◌++◌, ◌∷◌, [], ℕ, List, IfOk, OnOk, OnErr};
ghost use Rattle.world.specs.Counts.{Rose};

use std::alloc::Global;
use std::marker::Send;
use sub_types::NoMemory;

/// Where a worker reads the value of a number.
pub trait Source {
    /// What reading gives. What can't be read is part of it.
    type Given: Send + Drop;

    /// What the clauses on values speak of.
    type About;

    ghost about: { Self → Self.About };

    /// The numbers that it read, in order.
    ghost loaded: { Self → List ℕ };

    /// A count of failures, which never falls.
    ghost failures: { Self → ℕ };

    /// Which values may be given for a number, and which of them say that reading failed.
    ghost gives: { Self.About → ℕ → Self.Given → Type 0 };

    ghost fails: { Self.About → ℕ → Self.Given → Type 0 };

    /// The value of the number.
    fn read(&mut self, alloc: Global, number: u64) -> Result<Self::Given, NoMemory>
        ensures about { about self.new ≡ about self.old }
        ensures failures { failures self.old ≤ failures self.new }
        ensures loaded { OnOk result (loaded self.new ≡ loaded self.old ++ number ∷ []) }
        ensures not_loaded { OnErr result (loaded self.new ≡ loaded self.old) }
        ensures given { IfOk result (λ value. gives (about self.old) number value) }
        ensures failed { IfOk result (λ value. fails (about self.old) number value → Rose (failures self.old) (failures self.new)) };
}
