// Truth values.
ghost use Rattle.std.specs.Prelude.{◌<◌, All, IsTrue};

use std::alloc::Global;
use sub_types::Bits;

// true, false, true, true, false, false, false, true ..
fn expected(i: usize) -> bool {
    i % 3 == 0 || i % 7 == 2
}

// So many of them from a place on, of those for which memory was found.
fn numbered(alloc: Global, from: usize, to: usize) -> Bits {
    let mut bits = Bits::new(alloc);
    for i in from..to {
        let _ = bits.push(expected(i));
    }
    bits
}

fn are_same(a: &Bits, b: &Bits) -> bool {
    if a.len() != b.len() {
        return false;
    }
    for i in 0..a.len() {
        if a.get(i) != b.get(i) {
            return false;
        }
    }
    true
}

// Whether so many with a part of `more` behind them are what single pushes make, and the part alone too.
fn joins(alloc: Global, len: usize, more: &Bits, from: usize, to: usize) -> bool {
    if from > to || to > more.len() {
        return false;
    }
    let mut joined = numbered(alloc, 0, len);
    let mut want = numbered(alloc, 0, len);
    let mut part = Bits::new(alloc);
    for i in from..to {
        let _ = want.push(more.get(i));
        let _ = part.push(more.get(i));
    }
    let _ = joined.append(more, from, to);
    match more.part(alloc, from, to) {
        Ok(found) => are_same(&joined, &want) && are_same(&found, &part),
        Err(_) => false,
    }
}

// The same for so many, with every part.
fn joins_all(alloc: Global, len: usize) -> bool {
    let more = numbered(alloc, 5, 27);
    for from in 0..21 {
        for to in from..21 {
            if !joins(alloc, len, &more, from, to) {
                return false;
            }
        }
    }
    true
}

// Whether these places are below the end.
fn are_below(places: &[u64], end: u64) -> bool
    ensures { IsTrue result → All (λ i. i < end) places.now }
{
    places.iter().all(|i| *i < end)
}

// Whether a gather finds what stands at these places.
fn gathers(alloc: Global, bits: &Bits, at: &[u64]) -> bool {
    if !are_below(at, bits.len() as u64) {
        return false;
    }
    let mut want = Bits::new(alloc);
    for i in at {
        let i = *i as usize;
        if i < bits.len() {
            let _ = want.push(bits.get(i));
        }
    }
    match bits.gather(alloc, at) {
        Ok(found) => are_same(&found, &want),
        Err(_) => false,
    }
}

// Whether a mask of so many leaves those that stand in both.
fn masks(alloc: Global, n: usize) -> bool {
    let mut bits = numbered(alloc, 0, n);
    let which = numbered(alloc, 1, n.saturating_add(1));
    if which.len() != bits.len() {
        return false;
    }
    let mut want = Bits::new(alloc);
    for i in 0..bits.len() {
        let _ = want.push(bits.get(i) && which.get(i));
    }
    bits.mask(&which);
    are_same(&bits, &want) && counts(&bits)
}

// Values of two lists at each place, and what either of them says there.
const UNITED: [(bool, bool, bool); 19] = [
    (false, false, false),
    (false, true, true),
    (true, false, true),
    (true, true, true),
    (true, false, true),
    (false, false, false),
    (true, true, true),
    (false, true, true),
    (true, false, true),
    (false, false, false),
    (false, false, false),
    (true, true, true),
    (false, true, true),
    (false, false, false),
    (true, false, true),
    (false, false, false),
    (false, true, true),
    (true, false, true),
    (false, false, false),
];

// Whether the first so many of them are united to what stands beside them.
fn unites(alloc: Global, rows: &[(bool, bool, bool)]) -> bool {
    let mut bits = Bits::new(alloc);
    let mut which = Bits::new(alloc);
    let mut want = Bits::new(alloc);
    for (own, other, either) in rows {
        let _ = bits.push(*own);
        let _ = which.push(*other);
        let _ = want.push(*either);
    }
    if which.len() != bits.len() {
        return false;
    }
    bits.unite(&which);
    are_same(&bits, &want) && counts(&bits)
}

// Whether they are counted as one by one.
fn counts(bits: &Bits) -> bool {
    let mut left = bits.count();
    for i in 0..bits.len() {
        if bits.get(i) {
            if left == 0 {
                return false;
            }
            left -= 1;
        }
    }
    left == 0
}

// Whether these are so many times true.
fn are_ones(alloc: Global, n: usize) -> bool {
    match Bits::ones(alloc, n) {
        Ok(bits) => {
            let mut all = true;
            for i in 0..bits.len() {
                all = all && bits.get(i);
            }
            all && bits.is_all() && bits.count() == n && bits.len() == n
        }
        Err(_) => false,
    }
}

#[test]
fn whole_bytes_as_single_ones(rt: HostRuntime) {
    let alloc = rt.alloc();
    for len in 0..18 {
        assert!(rt; joins_all(alloc, len));
    }
    for n in 0..71 {
        let fine = are_ones(alloc, n) && masks(alloc, n);
        assert!(rt; fine);
    }
}

#[test]
fn either_of_two_lists(rt: HostRuntime) {
    let alloc = rt.alloc();
    for n in 0..20 {
        if n <= UNITED.len() {
            let (rows, _) = UNITED.split_at(n);
            assert!(rt; unites(alloc, rows));
        }
    }
}

#[test]
fn places_in_any_order(rt: HostRuntime) {
    let alloc = rt.alloc();
    let bits = numbered(alloc, 0, 40);
    let places = [
        39, 0, 3, 3, 8, 7, 9, 16, 2, 17, 25, 31, 33, 1, 38, 4, 5, 6, 10,
    ];
    for n in 0..20 {
        if n <= places.len() {
            let (at, _) = places.split_at(n);
            assert!(rt; gathers(alloc, &bits, at));
        }
    }
}
