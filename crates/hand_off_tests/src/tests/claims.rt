// Claims without numbers, and with more seats than numbers.
ghost use Rattle.std.specs.Prelude.{◌≡◌, ◌≤◌, ◌^◌, All};

use scan_claims::{ClaimSeat, Claims};
use std::alloc::Global;
use sub_types::NoMemory;

// One claim by each of the seats in turn: the numbers that were drawn, up to the first end.
fn claimed_in_turn(
    alloc: Global,
    claims: &Claims,
    mut seats: Vec<ClaimSeat>,
) -> Result<Vec<u64>, NoMemory>
    requires { All (λ s. s.of ≡ claims.now) seats.items }
{
    let mut drawn = Vec::new(alloc);
    while let Some(mut seat) = seats.pop() {
        if let Some(ticket) = claims.claim(&mut seat) {
            drawn.push(ticket.number())?;
        }
    }
    Ok(drawn)
}

// The numbers below the end, drawn by so many seats in turn.
fn drawn_by(alloc: Global, end: u64, seats: u32) -> Result<Vec<u64>, NoMemory>
    requires end { end ≤ 2 ^ 62 }
    requires seats { (1 ≤ seats) × (seats ≤ 64) }
{
    let (claims, seats) = Claims::new(alloc, end, seats)?;
    claimed_in_turn(alloc, &claims, seats)
}

// Whether so many seats are made of no numbers, and given back.
fn finishes(alloc: Global) -> bool {
    match Claims::new(alloc, 0, 3) {
        Ok((claims, seats)) => {
            let count = seats.len();
            let _drawn = claims.finish(seats);
            count == 3
        }
        Err(_) => false,
    }
}

fn are(drawn: Result<Vec<u64>, NoMemory>, want: &[u64]) -> bool {
    match drawn {
        Ok(drawn) => drawn.as_slice() == want,
        Err(_) => false,
    }
}

#[test]
fn numbers_in_order_and_then_none(rt: HostRuntime) {
    assert!(rt; finishes(rt.alloc()));
    assert!(rt; are(drawn_by(rt.alloc(), 0, 3), &[]));
    assert!(rt; are(drawn_by(rt.alloc(), 2, 3), &[0, 1]));
}
