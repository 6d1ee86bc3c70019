// A count and an exact total, as values come.
ghost use Rattle.std.specs.Prelude.{◌≡◌, ◌+◌, ◌*◌, ◌^◌, ◌<◌, ◌≤◌, pos, ◌+ℤ◌, unsigned_abs};
ghost use Rattle.group_tallies.specs.Totals.{number_of, number_of_parts};

use crate::exact::{Exact, high_part, low_part, settled};

/// How many numbers there were, and their exact total: `high` times 2^64, and `low`.
#[derive(Clone, Copy)]
pub(crate) struct Running {
    pub(crate) count: u64,
    pub(crate) high: i128,
    pub(crate) low: i128,
    ghost high_bound: { unsigned_abs high ≤ count * 2 ^ 63 },
    ghost low_bound: { unsigned_abs low ≤ count * 2 ^ 64 },
}

impl Running {
    pub(crate) const NONE: Running = Running {
        count: 0,
        high: 0,
        low: 0,
    };

    /// One more number.
    pub(crate) fn with(self, number: i128) -> Running
        requires { self.count < 2 ^ 62 }
        ensures count { result.count ≡ self.count + 1 }
        ensures total { number_of_parts result.high result.low ≡ number_of_parts self.high self.low +ℤ number }
    {
        Running {
            count: self.count + 1,
            high: self.high + high_part(number),
            low: self.low + low_part(number),
        }
    }

    /// The numbers of both.
    pub(crate) fn and(self, later: Running) -> Running
        requires { self.count + later.count ≤ 2 ^ 62 }
        ensures count { result.count ≡ self.count + later.count }
        ensures total { number_of_parts result.high result.low ≡ number_of_parts self.high self.low +ℤ number_of_parts later.high later.low }
    {
        Running {
            count: self.count + later.count,
            high: self.high + later.high,
            low: self.low + later.low,
        }
    }

    /// The total by its sign and its size.
    pub(crate) fn total(self) -> Exact
        requires { self.count ≤ 2 ^ 62 }
        ensures value { number_of result ≡ number_of_parts self.high self.low }
        ensures settled { result.low < 2 ^ 64 }
    {
        settled(self.high, self.low)
    }
}
