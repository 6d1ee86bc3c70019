// The rule of the claim table: what each seat knows, and what its steps do.
ghost use Rattle.std.specs.Prelude.{◌≡◌};

use atomic_table::{Join, Play, Split, TableRule};
use std::collections::LinkedList;

// What a seat knows: the numbers that it drew, how many ends it met, its share, and the table's limits. No value of it is made.
pub struct Draws {
    pub numbers: LinkedList<u64>,
    pub ends: u64,
    pub share: u64,
    pub count: u64,
    pub seats: u64,
}

// How many numbers there are to draw, and how many shares.
#[derive(Drop)]
pub struct Limits {
    pub count: u64,
    pub seats: u64,
}

pub struct DrawnOnce;

impl TableRule<(), Draws, Limits> for DrawnOnce {
    ghost use Rattle.scan_claims.specs.Rule.{Holds, fresh};

    ghost holds = { Holds };

    ghost first = { λ k. fresh k.count k.seats k.seats };
}

// A draw of the next number.
pub struct Draw;

impl Play<(), Draws> for Draw {
    ghost use Rattle.std.specs.Prelude.{◌≡◌};
    ghost use Rattle.scan_claims.specs.Rule.{DrawsOne};

    ghost then = { λ _ old found new. DrawsOne old.0 found new.0 × (new.1 ≡ old.1) };
}

// A look at what all seats have drawn.
pub struct Look;

impl Play<(), Draws> for Look {
    ghost use Rattle.std.specs.Prelude.{◌≡◌};
    ghost use Rattle.scan_claims.specs.Rule.{LooksOn};

    ghost then = { λ _ old _ new. LooksOn old.0 new.0 × (new.1 ≡ old.1) };
}

// One share for a new seat.
pub struct OneShare;

impl Split<Draws> for OneShare {
    ghost use Rattle.scan_claims.specs.Rule.{keeping, parted};

    ghost left = { keeping };

    ghost right = { parted };
}

// All that two seats have, for one.
pub struct Together;

impl Join<Draws> for Together {
    ghost use Rattle.scan_claims.specs.Rule.{joined, spent};

    ghost both = { joined };

    ghost spent = { spent };
}
