// The items that are left in the queue once all workers have ended. The last labour works them.
ghost use Rattle.std.specs.Prelude.{◌≡◌, ◌≤◌, [], ℕ, true, false, All, map, vec_len, IfOk, OnOk};
ghost use Rattle.std.specs.Vec.{vec_capacity};
ghost use Rattle.hand_off.specs.Hand.{IsSameBag};
ghost use Rattle.crew.specs.Labours.{labour_view};
ghost use Rattle.crew_round.specs.Rest.{rest_point, Advanced, IsWorkedOff, IsWorkedByLast};

use hand_off::{HandRest, Labour, Numbered};
use std::alloc::Global;
use std::sync::Wait;
use sub_types::NoMemory;

// Works one item that is left, and answers whether there was one.
fn work_one<H: Wait, T: Numbered, L: Labour<T>>(
    rt: &H,
    alloc: Global,
    rest: &mut HandRest<T>,
    labour: &mut L,
    left: &mut Vec<u64>,
) -> Result<bool, NoMemory>
    ensures about { L.about labour.new ≡ L.about labour.old }
    ensures worked { IfOk result (λ _.
        (start : _)
        → Advanced T.number_of L.Out.number_of L.fits start
        (rest_point rest.old (labour_view (L.about labour.old) (L.loaded labour.old) (L.results labour.old) (L.failures labour.old)) left.old.items)
        → Advanced T.number_of L.Out.number_of L.fits start
        (rest_point rest.new (labour_view (L.about labour.new) (L.loaded labour.new) (L.results labour.new) (L.failures labour.new)) left.new.items)) }
    ensures over { IfOk result (λ more. more ≡ false → IsSameBag rest.new.offered rest.new.taken) }
{
    left.reserve(1)?;
    let Some(item) = rest.next(rt) else {
        return Ok(false);
    };
    left.push_reserved(item.number());
    labour.work(alloc, item)?;
    Ok(true)
}

// Works all items that are left. The answer is their numbers.
fn work_rest<H: Wait, T: Numbered, L: Labour<T>>(
    rt: &H,
    alloc: Global,
    mut rest: HandRest<T>,
    labour: &mut L,
) -> Result<Vec<u64>, NoMemory>
    ensures about { L.about labour.new ≡ L.about labour.old }
    ensures worked { IfOk result (λ left.
        IsWorkedOff T.number_of L.Out.number_of L.fits rest
        (labour_view (L.about labour.old) (L.loaded labour.old) (L.results labour.old) (L.failures labour.old))
        (labour_view (L.about labour.new) (L.loaded labour.new) (L.results labour.new) (L.failures labour.new)) left.items) }
{
    let mut left = Vec::new(alloc);
    for _ in rt.forever() {
        let worked = work_one(rt, alloc, &mut rest, labour, &mut left);
        match worked {
            Ok(true) => {}
            Ok(false) => return Ok(left),
            Err(error) => return Err(error),
        }
    }
    unreachable!()
}

// The last of the labours works all items that are left. The answer is their numbers.
pub(crate) fn work_rest_by_last<H: Wait, T: Numbered, L: Labour<T>>(
    rt: &H,
    alloc: Global,
    rest: HandRest<T>,
    labours: &mut Vec<L>,
) -> Result<Vec<u64>, NoMemory>
    requires { 1 ≤ vec_len labours.old }
    ensures about { map L.about labours.new.items ≡ map L.about labours.old.items }
    ensures worked { IfOk result (λ left.
        IsWorkedByLast T.number_of L.Out.number_of L.fits
        (λ l. labour_view (L.about l) (L.loaded l) (L.results l) (L.failures l)) rest labours.old.items labours.new.items left.items) }
{
    let Some(mut last) = labours.pop() else {
        unreachable!()
    };
    let worked = work_rest(rt, alloc, rest, &mut last);
    labours.push_reserved(last);
    worked
}
