// The claims: a table of one word, the next number to draw.
ghost use Rattle.std.specs.Prelude.{◌≡◌, ◌+◌, ◌-◌, ◌^◌, ◌<◌, ◌≤◌, ◌++◌, ◌∷◌, [], ◌||◌, true, false, ℕ, All, Any, vec_len, length, sum_by, IfOk, IfSome, IfNone};
ghost use Rattle.run_core.specs.Counts.{times};
ghost use Rattle.scan_claims.specs.Claims.{IsEachOnce, AreApart};

use crate::rule::{Draw, DrawnOnce, Draws, Limits, Look, OneShare, Together};
use crate::seat::{ClaimSeat, Drawn, Ticket};
use atomic_table::Table;
use std::alloc::Global;
use std::marker::Model;
use sub_types::NoMemory;

/// The numbers below a count, to be drawn once each by the seats.
#[derive(Drop)]
pub struct Claims {
    table: Table<(), Draws, Limits, DrawnOnce, Global>,
    count: u64,
}

impl Model for Claims {
    ghost use Rattle.std.specs.Prelude.{◌≡◌, ◌≤◌};
    ghost use Rattle.scan_claims.specs.Claims.{ClaimTable};

    ghost Value = { ClaimTable };

    ghost view = { λ c. record { table = c.table.shared.table_id; count = c.count; seats = c.table.shared.key.seats } };

    ghost invariant = { λ c. (c.table.shared.table_id.words ≡ 1) × (c.table.shared.key.count ≡ c.count) × (1 ≤ c.table.shared.key.seats) };
}

impl Claims {
    /// Claims over the numbers below `n`, and so many seats, each with one share.
    pub fn new(alloc: Global, n: u64, seats: u32) -> Result<(Claims, Vec<ClaimSeat>), NoMemory>
        requires seats { (1 ≤ seats) × (seats ≤ 64) }
        requires count { n ≤ 2 ^ 62 }
        ensures claims { IfOk result (λ r. (r.0.count ≡ n) × (r.0.seats ≡ seats)) }
        ensures seats { IfOk result (λ r. vec_len r.1 ≡ seats) }
        ensures of { IfOk result (λ r. All (λ s. s.of ≡ r.0) r.1.items) }
        ensures whole { IfOk result (λ r. sum_by (λ s. s.share) r.1.items ≡ r.0.seats) }
        ensures fresh { IfOk result (λ r. All (λ s. (s.numbers ≡ []) × (s.ended ≡ false) × (s.share ≡ 1)) r.1.items) }
    {
        let limits = Limits {
            count: n,
            seats: u64::from(seats),
        };
        let mut places = Vec::with_capacity(alloc, seats as usize)?;
        let (table, seat) = Table::of_words(alloc, &[0], &limits)?;
        let claims = Claims { table, count: n };
        let mut first = ClaimSeat { seat, ended: false };
        for _ in 1..seats {
            places.push_reserved(claims.split(&mut first));
        }
        places.push_reserved(first);
        Ok((claims, places))
    }

    // A new seat with one share of this one's.
    fn split(&self, seat: &mut ClaimSeat) -> ClaimSeat
        requires of { seat.old.of ≡ self.now }
        requires open { (seat.old.ended ≡ false) × (2 ≤ seat.old.share) }
        ensures left { seat.new ≡ record seat.old { share = seat.old.share - 1 } }
        ensures right { result ≡ record { of = self.now; numbers = []; ended = false; share = 1 } }
    {
        let right = self.table.shared.split_seat::<OneShare>(&mut seat.seat);
        ClaimSeat {
            seat: right,
            ended: false,
        }
    }

    // All that the other seat has goes to this one.
    fn join(&self, seat: &mut ClaimSeat, other: ClaimSeat)
        requires { (seat.old.of ≡ self.now) × (other.of ≡ self.now) }
        ensures { seat.new ≡ record { of = self.now; numbers = seat.old.numbers ++ other.numbers; ended = seat.old.ended || other.ended; share = seat.old.share + other.share } }
    {
        let ClaimSeat { seat: place, ended } = other;
        self.table
            .shared
            .join_seat::<Together>(&mut seat.seat, place);
        seat.ended = seat.ended || ended;
    }

    // What the seat knows where it has all shares.
    fn look(&self, seat: &mut ClaimSeat)
        requires { seat.old.of ≡ self.now }
        ensures same { seat.new ≡ seat.old }
        ensures apart { seat.old.share ≡ self.now.seats → AreApart self.now.count seat.old.numbers }
        ensures whole { seat.old.share ≡ self.now.seats → seat.old.ended ≡ true → IsEachOnce self.now.count seat.old.numbers }
    {
        self.table.shared.load::<Look>(&mut seat.seat, 0);
    }

    /// The next number, or `None` once all are drawn. After `None` the seat draws no more.
    pub fn claim(&self, seat: &mut ClaimSeat) -> Option<Ticket>
        requires { seat.old.of ≡ self.now }
        ensures seat { (seat.new.of ≡ seat.old.of) × (seat.new.share ≡ seat.old.share) }

        // The seat's list gains just the number of the ticket.
        ensures drawn { IfSome result (λ t. seat.new.numbers ≡ seat.old.numbers ++ t ∷ []) }
        ensures below { IfSome result (λ t. t < self.now.count) }
        ensures fresh { IfSome result (λ t. times t seat.old.numbers ≡ 0) }
        ensures open { IfSome result (λ _. (seat.old.ended ≡ false) × (seat.new.ended ≡ false)) }

        // It draws nothing else, and the seat has met the end.
        ensures none { IfNone result ((seat.new.numbers ≡ seat.old.numbers) × (seat.new.ended ≡ true)) }
        ensures all_drawn { IfNone result (seat.old.ended ≡ false → seat.old.share ≡ self.now.seats → IsEachOnce self.now.count seat.old.numbers) }
    {
        if seat.ended {
            return None;
        }
        let number = self.table.shared.fetch_add::<Draw>(&mut seat.seat, 0, 1);
        if number < self.count {
            Some(Ticket { number })
        } else {
            seat.ended = true;
            None
        }
    }

    /// All numbers that the seats drew. The seats are all seats of these claims.
    pub fn finish(self, mut seats: Vec<ClaimSeat>) -> Drawn
        requires of { All (λ s. s.of ≡ self) seats.items }
        requires all { sum_by (λ s. s.share) seats.items ≡ self.seats }
        ensures numbers { (x : ℕ) → times x result ≡ sum_by (λ s. times x s.numbers) seats.items }
        ensures apart { AreApart self.count result }
        ensures whole { Any (λ s. s.ended ≡ true) seats.items → IsEachOnce self.count result }
    {
        let Some(mut all) = seats.pop() else {
            unreachable!()
        };
        while let Some(seat) = seats.pop() {
            self.join(&mut all, seat);
        }
        self.look(&mut all);
        Drawn { all }
    }
}
