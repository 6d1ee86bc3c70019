// How often the rows that are alike are in each input, and how many of them are taken.
ghost use Rattle.std.specs.Prelude.{◌≡◌, ◌<◌, ◌≤◌, ℕ, Bool, length, slice_index_or};
ghost use Rattle.hash_chains.specs.First.{rows_where};
ghost use Rattle.set_places.specs.Taken as spec;

use plan_typed::SetOp;

/// How many of the rows that are alike are taken, of which so many are in the first input. `others` says where each other input
/// ends.
pub(crate) fn allowed(op: SetOp, alike: &[u64], first: u64, many: usize, others: &[u64]) -> usize
    requires { many ≤ length alike.now }
    ensures { (test : ℕ → Bool) (count : ℕ) → alike.now ≡ rows_where test count → spec.AreEnds first others.now count → many ≡ spec.times test 0 first → result ≡ spec.allowed op many (spec.times_each test first others.now) }
{
    let elsewhere = alike.len() - many;
    match op {
        SetOp::MinusPrimary => 1usize.saturating_sub(elsewhere),
        SetOp::MinusPrimaryAll => many.saturating_sub(elsewhere),
        SetOp::IntersectionPrimary => elsewhere.min(1),
        SetOp::IntersectionMultiset => least_in(alike, many, 1, others),
        SetOp::IntersectionMultisetAll => least_in(alike, many, many, others),
        SetOp::UnionDistinct => 1,
        SetOp::UnionAll => many,
    }
}

// The least of a number and of how many of the rows from a place on are in each input.
fn least_in(alike: &[u64], from: usize, least: usize, ends: &[u64]) -> usize
    requires { from ≤ length alike.now }
    ensures { (test : ℕ → Bool) (count start : ℕ) → alike.now ≡ rows_where test count → spec.AreEnds start ends.now count → from ≡ spec.times test 0 start → result ≡ spec.least least (spec.times_each test start ends.now) }
{
    let mut at = from;
    let mut least = least;
    for end in ends {
        let next = leading(alike, at, *end);
        least = least.min(next - at);
        at = next;
    }
    least
}

/// The first place from a place on where a row isn't below the end.
pub(crate) fn leading(alike: &[u64], from: usize, end: u64) -> usize
    requires { from ≤ length alike.now }
    ensures from { from ≤ result }
    ensures within { result ≤ length alike.now }
    ensures below { (k d : ℕ) → from ≤ k → k < result → slice_index_or alike.now k d < end }
    ensures times { (test : ℕ → Bool) (count : ℕ) → alike.now ≡ rows_where test count → end ≤ count → from ≤ spec.times test 0 end → result ≡ spec.times test 0 end }
{
    for at in from..alike.len() {
        if alike[at] >= end {
            return at;
        }
    }
    alike.len()
}
