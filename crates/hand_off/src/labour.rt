// What a worker does with the numbers that it claims: it loads the item of a number, and works an item.
ghost use Rattle.std.specs.Prelude.{◌≡◌, ◌≤◌, ◌++◌, ◌∷◌, [], ℕ, List, IfOk, OnOk, OnErr};
ghost use Rattle.world.specs.Counts.{Rose};

use crate::numbered::{Handed, Numbered};
use scan_claims::Ticket;
use std::alloc::Global;
use sub_types::NoMemory;

/// The labour of one worker: it loads items and keeps what they come to.
pub trait Labour<T: Numbered> {
    /// What an item comes to.
    type Out: Numbered;

    /// What the tests of items and the outcomes speak of.
    type About;

    ghost about: { Self → Self.About };

    /// The numbers that it loaded, and the outcomes that it keeps, each in order.
    ghost loaded: { Self → List ℕ };

    ghost results: { Self → List Self.Out };

    /// A count of failures, which never falls.
    ghost failures: { Self → ℕ };

    /// Whether an item is what its number stands for, whether it is a failure, and which outcomes fit it.
    ghost right: { Self.About → T → Type 0 };

    ghost failed: { Self.About → T → Type 0 };

    ghost fits: { Self.About → T → Self.Out → Type 0 };

    /// The item of the ticket's number. What can't be read is part of the item.
    fn load(&mut self, alloc: Global, ticket: &Ticket) -> Result<T, NoMemory>
        ensures about { about self.new ≡ about self.old }
        ensures failures { failures self.old ≤ failures self.new }
        ensures results { results self.new ≡ results self.old }
        ensures loaded { OnOk result (loaded self.new ≡ loaded self.old ++ ticket.now ∷ []) }
        ensures not_loaded { OnErr result (loaded self.new ≡ loaded self.old) }
        ensures number { IfOk result (λ item. T.number_of item ≡ ticket.now) }
        ensures right { IfOk result (λ item. right (about self.old) item) }
        ensures failed { IfOk result (λ item. failed (about self.old) item → Rose (failures self.old) (failures self.new)) };

    /// Keeps what the item comes to. What can't be computed is part of the outcome.
    fn work(&mut self, alloc: Global, item: Handed<T>) -> Result<(), NoMemory>
        ensures about { about self.new ≡ about self.old }
        ensures failures { failures self.old ≤ failures self.new }
        ensures loaded { loaded self.new ≡ loaded self.old }
        ensures worked { OnOk result ((out : Self.Out) × (results self.new ≡ results self.old ++ out ∷ []) × fits (about self.old) item out) }
        ensures not_worked { OnErr result (results self.new ≡ results self.old) };

    /// An outcome has the number of the items that it fits.
    ghost same_number: { (a : Self.About) (item : T) (out : Self.Out) → fits a item out → Self.Out.number_of out ≡ T.number_of item };
}
