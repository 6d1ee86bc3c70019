// Items that have a number, and items that a hand-off gave back or gave out.
ghost use Rattle.std.specs.Prelude.{◌≡◌, ℕ};

use std::marker::{Model, Send};

/// An item that belongs to the number of a batch.
pub trait Numbered: Send + Drop {
    /// The number.
    ghost number_of: { Self → ℕ };

    fn number(&self) -> u64
        ensures { result ≡ number_of self.now };
}

/// An item that a full queue handed back or that was taken from the queue. It is made by the hand-off alone.
#[derive(Drop)]
pub struct Handed<T> {
    pub(crate) item: T,
}

impl<T> Model for Handed<T> {
    ghost Value = { T };

    ghost coded = { T.code };

    ghost view = { λ h. h.item };
}

impl<T> Handed<T> {
    pub fn into_inner(self) -> T
        ensures { result ≡ self }
    {
        let Handed { item } = self;
        item
    }
}

impl<T: Numbered> Handed<T> {
    pub fn number(&self) -> u64
        ensures { result ≡ T.number_of self.now }
    {
        self.item.number()
    }
}
