// The labour over a source and a work.
ghost use Rattle.std.specs.Prelude.{◌≡◌, ◌≤◌, ◌++◌, ◌∷◌, [], ℕ, List, IfOk, OnOk, OnErr};
ghost use Rattle.world.specs.Counts.{Rose};

use crate::item::Item;
use crate::source::Source;
use crate::work::Work;
use crew::Gives;
use hand_off::{Handed, Labour, Numbered};
use scan_claims::Ticket;
use std::alloc::Global;
use std::mem;
use sub_types::NoMemory;

/// One worker's labour: a source of its own, what it does with each value, and what it made so far, in order.
#[derive(Drop)]
pub struct PipeLabour<S, W, M> {
    pub source: S,
    pub work: W,
    pub outs: Vec<Item<M>>,
}

impl<S, W, M> PipeLabour<S, W, M> {
    /// A labour that has made nothing yet.
    pub fn new(alloc: Global, source: S, work: W) -> PipeLabour<S, W, M>
        ensures source { result.source ≡ source }
        ensures work { result.work ≡ work }
        ensures outs { result.outs.items ≡ [] }
    {
        PipeLabour {
            source,
            work,
            outs: Vec::new(alloc),
        }
    }
}

impl<S: Source, W: Work<S::Given>> Labour<Item<S::Given>> for PipeLabour<S, W, W::Made> {
    type Out = Item<W::Made>;

    type About = (S::About, W::Sense);

    ghost use Rattle.std.specs.Prelude.{◌≡◌};

    ghost about = { λ l. (S.about l.source, W.sense l.work) };

    ghost loaded = { λ l. S.loaded l.source };

    ghost results = { λ l. l.outs.items };

    ghost failures = { λ l. S.failures l.source };

    ghost right = { λ a item. S.gives a.0 item.number item.value };

    ghost failed = { λ a item. S.fails a.0 item.number item.value };

    ghost fits = { λ a item out. W.makes a.1 item.number item.value out.value × (out.number ≡ item.number) };

    fn load(&mut self, alloc: Global, ticket: &Ticket) -> Result<Item<S::Given>, NoMemory> {
        let number = ticket.number();
        let value = self.source.read(alloc, number)?;
        Ok(Item { number, value })
    }

    fn work(&mut self, alloc: Global, item: Handed<Item<S::Given>>) -> Result<(), NoMemory>
        ensures source { self.new.source ≡ self.old.source }
        ensures work { self.new.work ≡ self.old.work }
        ensures worked { OnOk result (
            (out : Item W.Made) × (self.new.outs.items ≡ self.old.outs.items ++ out ∷ [])
            × (W.makes (W.sense self.old.work) item.number item.value out.value × (out.number ≡ item.number))) }
        ensures not_worked { OnErr result (self.new.outs.items ≡ self.old.outs.items) }
    {
        self.outs.reserve(1)?;
        let Item { number, value } = item.into_inner();
        let made = self.work.make(alloc, number, value)?;
        self.outs.push_reserved(Item {
            number,
            value: made,
        });
        Ok(())
    }

    ghost same_number = { λ _ _ _ fit. fit.1 };
}

impl<S: Source, W: Work<S::Given>> Gives<Item<S::Given>> for PipeLabour<S, W, W::Made> {
    fn give(&mut self, alloc: Global) -> Vec<Item<W::Made>>
        ensures given { result.items ≡ self.old.outs.items }
        ensures none { self.new.outs.items ≡ [] }
        ensures source { self.new.source ≡ self.old.source }
        ensures work { self.new.work ≡ self.old.work }
    {
        mem::replace(&mut self.outs, Vec::new(alloc))
    }
}
