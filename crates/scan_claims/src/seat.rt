// A worker's place at the claims, and what it draws there.
ghost use Rattle.std.specs.Prelude.{◌≡◌};

use crate::rule::Draws;
use atomic_table::Seat;
use std::marker::Model;

/// A worker's place at the claims. Contracts see the numbers that it drew, whether it has met the end, and its share.
#[derive(Drop)]
pub struct ClaimSeat {
    pub(crate) seat: Seat<(), Draws>,
    pub(crate) ended: bool,
}

impl Model for ClaimSeat {
    ghost use Rattle.scan_claims.specs.Claims.{SeatView};

    ghost Value = { SeatView };

    ghost use Rattle.scan_claims.specs.Seats.{view_of, IsSeat};

    ghost view = { λ s. view_of s.seat s.ended };

    ghost invariant = { λ s. IsSeat s.seat s.ended };
}

/// A number that was drawn. It is made by `claim` alone.
#[derive(Debug, Drop)]
pub struct Ticket {
    pub(crate) number: u64,
}

impl Model for Ticket {
    ghost use Rattle.std.specs.Prelude.{ℕ};

    ghost Value = { ℕ };

    ghost view = { λ t. t.number };
}

impl Ticket {
    pub fn number(&self) -> u64
        ensures { result ≡ self.now }
    {
        self.number
    }
}

/// All numbers that the seats drew. Contracts see the list.
#[derive(Drop)]
pub struct Drawn {
    pub(crate) all: ClaimSeat,
}

impl Model for Drawn {
    ghost use Rattle.std.specs.Prelude.{ℕ, List};

    ghost Value = { List ℕ };

    ghost view = { λ d. d.all.numbers };
}
