// The run machine, event by event.

use run_core::{Event, Run};
use std::alloc::Global;

const CLAIM: Event = Event::Claim { worker: 0 };

const PUT: Event = Event::Put { worker: 0 };

const TAKE: Event = Event::Take { worker: 0 };

const FINISH: Event = Event::Finish { worker: 0 };

// Tries each event in its turn; whether those are allowed that are to be.
fn plays(run: &mut Run, events: &[(Event, bool)]) -> bool {
    for (event, allowed) in events {
        if run.reserve().is_err() || run.step(*event) != *allowed {
            return false;
        }
    }
    true
}

// Whether each receipt has these claims, offers, takings and ends.
fn has_done(run: &Run, claimed: &[u64], offered: &[u64], taken: &[u64], finished: &[u64]) -> bool {
    for receipt in run.receipts() {
        let same = receipt.claimed.as_slice() == claimed
            && receipt.offered.as_slice() == offered
            && receipt.taken.as_slice() == taken
            && receipt.finished.as_slice() == finished;
        if !same {
            return false;
        }
    }
    true
}

fn goes_through(alloc: Global) -> bool {
    let events = [(CLAIM, true), (PUT, true), (TAKE, true), (FINISH, true)];
    match Run::new(alloc, 1, 1, 1) {
        Ok(mut run) => plays(&mut run, &events) && has_done(&run, &[0], &[0], &[0], &[0]),
        Err(_) => false,
    }
}

fn is_refused(alloc: Global) -> bool {
    match Run::new(alloc, 1, 1, 1) {
        Ok(mut run) => plays(&mut run, &[(CLAIM, true), (FINISH, false)])
            && has_done(&run, &[0], &[], &[], &[])
            && plays(&mut run, &[(CLAIM, false), (TAKE, false), (PUT, true)]),
        Err(_) => false,
    }
}

#[test]
fn one_number_through_the_machine(rt: HostRuntime) {
    assert!(rt; goes_through(rt.alloc()));
}

#[test]
fn a_fresh_number_is_not_finished(rt: HostRuntime) {
    assert!(rt; is_refused(rt.alloc()));
}
