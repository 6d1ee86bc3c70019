// What the tests of all columns share.
ghost use Rattle.std.specs.Prelude.{◌<◌, All, IsTrue};

// Whether each of these places is below the end.
pub(super) fn are_below(places: &[u64], end: u64) -> bool
    ensures { IsTrue result → All (λ i. i < end) places.now }
{
    places.iter().all(|i| *i < end)
}

// Which of these doesn't hold, if one doesn't.
pub(super) fn first_false(seen: &[bool]) -> Option<usize> {
    seen.iter().position(|holds| !*holds)
}
