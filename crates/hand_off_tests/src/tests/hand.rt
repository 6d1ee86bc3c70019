// The hand-off, call by call.
ghost use Rattle.std.specs.Prelude.{◌≡◌, ◌+◌, All, sum_by, IfSome, IfNone, OnOk, IfOk};

use crate::numbers::Item;
use crate::run::numbers_left;
use hand_off::{HandOff, HandPass};
use scan_claims::{ClaimSeat, Claims};
use std::alloc::Global;
use std::sync::Wait;
use sub_types::NoMemory;

// The last pass of these.
fn last_pass(
    hand: &HandOff<Item>,
    passes: &mut Vec<HandPass<Item>>,
) -> Result<HandPass<Item>, NoMemory>
    requires { All (λ p. p.of ≡ hand.now) passes.old.items }
    ensures of { All (λ p. p.of ≡ hand.now) passes.new.items }
    ensures pass { IfOk result (λ p. (p.of ≡ hand.now) × (sum_by (λ q. q.share) passes.new.items + p.share ≡ sum_by (λ q. q.share) passes.old.items)) }
{
    let Some(pass) = passes.pop() else {
        return Err(NoMemory);
    };
    Ok(pass)
}

fn give_back(
    hand: &HandOff<Item>,
    passes: &mut Vec<HandPass<Item>>,
    pass: HandPass<Item>,
) -> Result<(), NoMemory>
    requires of { All (λ p. p.of ≡ hand.now) passes.old.items }
    requires pass { pass.of ≡ hand.now }
    ensures of { OnOk result (All (λ p. p.of ≡ hand.now) passes.new.items) }
    ensures shares { OnOk result (sum_by (λ p. p.share) passes.new.items ≡ sum_by (λ p. p.share) passes.old.items + pass.share) }
{
    passes.reserve(1)?;
    passes.push_reserved(pass);
    Ok(())
}

// The one seat of these claims.
fn one_seat(claims: &Claims, mut seats: Vec<ClaimSeat>) -> Result<ClaimSeat, NoMemory>
    requires { All (λ s. s.of ≡ claims.now) seats.items }
    ensures { IfOk result (λ s. s.of ≡ claims.now) }
{
    let Some(seat) = seats.pop() else {
        return Err(NoMemory);
    };
    Ok(seat)
}

// Claims the next number and offers it. A number that comes back is the answer, and 100 where none does.
fn offer_next<H: Wait>(
    rt: &H,
    claims: &Claims,
    seat: &mut ClaimSeat,
    hand: &HandOff<Item>,
    pass: &mut HandPass<Item>,
) -> u64
    requires seat { seat.old.of ≡ claims.now }
    requires pass { pass.old.of ≡ hand.now }
    ensures seat { seat.new.of ≡ seat.old.of }
    ensures pass { (pass.new.of ≡ pass.old.of) × (pass.new.share ≡ pass.old.share) }
{
    let Some(ticket) = claims.claim(seat) else {
        return 200;
    };
    let item = Item {
        number: ticket.number(),
    };
    if let Err(back) = hand.offer(rt, pass, ticket, item) {
        return back.into_inner().number;
    }
    100
}

// The number that the pass takes, and 100 where there is none.
fn take_next<H: Wait>(rt: &H, hand: &HandOff<Item>, pass: &mut HandPass<Item>) -> u64
    requires { pass.old.of ≡ hand.now }
    ensures { (pass.new.of ≡ pass.old.of) × (pass.new.share ≡ pass.old.share) }
{
    let Some(item) = hand.take(rt, pass) else {
        return 100;
    };
    item.into_inner().number
}

fn hands_back<H: Wait>(rt: &H, alloc: Global) -> Result<bool, NoMemory> {
    let (claims, seats) = Claims::new(alloc, 2, 1)?;
    let mut seat = one_seat(&claims, seats)?;
    let (hand, mut passes) = HandOff::new(rt, alloc, 1, 1)?;
    let mut pass = last_pass(&hand, &mut passes)?;
    let first = offer_next(rt, &claims, &mut seat, &hand, &mut pass);
    let second = offer_next(rt, &claims, &mut seat, &hand, &mut pass);
    let taken = take_next(rt, &hand, &mut pass);
    let none = take_next(rt, &hand, &mut pass);
    give_back(&hand, &mut passes, pass)?;
    let left = numbers_left(rt, alloc, hand.finish(rt, passes))?;
    Ok([first, second, taken, none] == [100, 1, 0, 100] && left.is_empty())
}

#[test]
fn a_full_queue_hands_back(rt: HostRuntime) {
    assert!(rt; hands_back(&rt, rt.alloc()) == Ok(true));
}

// Offers two numbers, and gives what is left then.
fn left_of_two<H: Wait>(rt: &H, alloc: Global) -> Result<Vec<u64>, NoMemory> {
    let (claims, seats) = Claims::new(alloc, 2, 1)?;
    let mut seat = one_seat(&claims, seats)?;
    let (hand, mut passes) = HandOff::new(rt, alloc, 2, 2)?;
    let mut pass = last_pass(&hand, &mut passes)?;
    let first = offer_next(rt, &claims, &mut seat, &hand, &mut pass);
    let second = offer_next(rt, &claims, &mut seat, &hand, &mut pass);
    if [first, second] != [100, 100] {
        return Err(NoMemory);
    }
    give_back(&hand, &mut passes, pass)?;
    numbers_left(rt, alloc, hand.finish(rt, passes))
}

fn are_both(left: Result<Vec<u64>, NoMemory>) -> bool {
    match left {
        Ok(left) => left.as_slice() == [0, 1].as_slice(),
        Err(_) => false,
    }
}

#[test]
fn what_is_left_comes_from_the_front(rt: HostRuntime) {
    assert!(rt; are_both(left_of_two(&rt, rt.alloc())));
}

fn takes_from_another<H: Wait>(rt: &H, alloc: Global) -> Result<bool, NoMemory> {
    let (claims, seats) = Claims::new(alloc, 2, 1)?;
    let mut seat = one_seat(&claims, seats)?;
    let (hand, mut passes) = HandOff::new(rt, alloc, 2, 2)?;
    let mut pass = last_pass(&hand, &mut passes)?;
    let mut other = last_pass(&hand, &mut passes)?;
    let first = offer_next(rt, &claims, &mut seat, &hand, &mut pass);
    let second = offer_next(rt, &claims, &mut seat, &hand, &mut pass);
    let taken = take_next(rt, &hand, &mut other);
    let then = take_next(rt, &hand, &mut other);
    Ok([first, second, taken, then] == [100, 100, 0, 1])
}

#[test]
fn another_pass_takes_what_one_offered(rt: HostRuntime) {
    assert!(rt; takes_from_another(&rt, rt.alloc()) == Ok(true));
}
