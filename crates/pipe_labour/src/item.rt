// Values that belong to a number.
ghost use Rattle.std.specs.Prelude.{◌≡◌};

use hand_off::Numbered;
use std::marker::Send;

/// A value with the number of the batch that it belongs to.
#[derive(Debug, Drop)]
pub struct Item<X> {
    pub number: u64,
    pub value: X,
}

impl<X: Send + Drop> Numbered for Item<X> {
    ghost number_of = { λ item. item.number };

    fn number(&self) -> u64 {
        self.number
    }
}
