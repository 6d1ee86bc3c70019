// The rule of the hand-off: what each pass knows, and what its steps do.

use crossbeam_queue::protocol::{Join, Lesson, Outcome, Protocol, Split};
use std::collections::LinkedList;

// What a pass knows: the items that it offered and took, its share, and how many shares there are. No value of it is made.
pub struct Passed<T> {
    pub offered: LinkedList<T>,
    pub taken: LinkedList<T>,
    pub share: u64,
    pub passes: u64,
}

pub struct PassedOn;

impl<T> Protocol<T, Passed<T>> for PassedOn {
    ghost use Rattle.hand_off.specs.Rule.{Kept, fresh};

    ghost holds = { Kept };

    ghost first = { fresh 1 1 };
}

// A push of an item.
pub struct Offer;

impl<T> Outcome<T, Passed<T>> for Offer {
    ghost use Rattle.hand_off.specs.Rule.{Offers};

    ghost then = { Offers };
}

impl<T> Lesson<T, Passed<T>> for Offer {
    ghost use Rattle.hand_off.specs.Rule.{Sees};

    ghost fact = { Sees };
}

// A pop of an item.
pub struct Take;

impl<T> Outcome<T, Passed<T>> for Take {
    ghost use Rattle.hand_off.specs.Rule.{Takes};

    ghost then = { Takes };
}

impl<T> Lesson<T, Passed<T>> for Take {
    ghost use Rattle.hand_off.specs.Rule.{Sees};

    ghost fact = { Sees };
}

// One share more, while one pass has all.
pub struct OneMore;

impl<T> Split<Passed<T>> for OneMore {
    ghost use Rattle.hand_off.specs.Rule.{growing, fresh};

    ghost left = { growing };

    ghost right = { λ _. fresh 0 0 };
}

// One share for a new pass.
pub struct OneShare;

impl<T> Split<Passed<T>> for OneShare {
    ghost use Rattle.hand_off.specs.Rule.{keeping, parted};

    ghost left = { keeping };

    ghost right = { parted };
}

// All that two passes have, for one.
pub struct Together;

impl<T> Join<Passed<T>> for Together {
    ghost use Rattle.hand_off.specs.Rule.{joined, fresh};

    ghost both = { joined };

    ghost spent = { fresh 0 0 };
}
