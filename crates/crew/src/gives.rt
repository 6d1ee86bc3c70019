// A labour that hands out what it keeps.
ghost use Rattle.std.specs.Prelude.{◌≡◌, []};

use hand_off::{Labour, Numbered};
use std::alloc::Global;

/// A labour whose outcomes can be taken from it.
pub trait Gives<T: Numbered>: Labour<T> {
    /// All outcomes that it keeps, in order. It keeps none of them.
    fn give(&mut self, alloc: Global) -> Vec<Self::Out>
        ensures given { result.items ≡ Self.results self.old }
        ensures none { Self.results self.new ≡ [] }
        ensures about { Self.about self.new ≡ Self.about self.old }
        ensures loaded { Self.loaded self.new ≡ Self.loaded self.old }
        ensures failures { Self.failures self.new ≡ Self.failures self.old };
}
