// What goes to the nodes of one relation's expressions.
ghost use Rattle.std.specs.Prelude.{◌≡◌, ◌+◌, IfOk, OnOk};
ghost use Rattle.std.specs.Option.{option_map};
ghost use Rattle.sub_query.specs.Known.{worth_seen, worths_at, IsOfRelation};

use crate::{KnownWorth, Worth};
use std::alloc::Global;
use std::collections::BTreeMap;
use sub_types::NoMemory;

/// What goes to the nodes of one relation's expressions, by their numbers.
#[derive(Drop)]
pub(crate) struct NodeWorths<'a> {
    by_node: BTreeMap<u64, &'a Worth>,
}

impl<'a> NodeWorths<'a> {
    /// What goes to the relation with this number; of several that go to one node the first counts.
    pub(crate) fn of_relation(
        alloc: Global,
        known: &'a [KnownWorth],
        relation: u32,
    ) -> Result<NodeWorths<'a>, NoMemory>
        ensures { IfOk result (λ worths. IsOfRelation known.now relation worths.by_node) }
    {
        let mut by_node = BTreeMap::new(alloc);
        for i in (0..known.len()).rev() {
            let one = &known[i];
            if one.hole.relation == relation {
                by_node.insert(u64::from(one.hole.node), &one.worth)?;
            }
        }
        Ok(NodeWorths { by_node })
    }

    /// What goes to a node.
    pub(crate) fn at(&self, node: u64) -> Option<&Worth>
        ensures { option_map (λ worth. worth_seen worth.now) result ≡ worths_at self.now node }
    {
        match self.by_node.get(&node) {
            Some(worth) => Some(*worth),
            None => None,
        }
    }
}

/// The number of the node that comes next, and one more for the one behind it.
pub(crate) fn take_number(next: &mut u64) -> Result<u64, NoMemory>
    ensures number { IfOk result (λ number. number ≡ next.old) }
    ensures next { OnOk result (next.new ≡ next.old + 1) }
{
    let number = *next;
    let Some(more) = number.checked_add(1) else {
        return Err(NoMemory);
    };
    *next = more;
    Ok(number)
}
