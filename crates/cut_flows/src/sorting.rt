// Relations that need their whole input.
ghost use Rattle.std.specs.Prelude.{◌≡◌, ◌++◌, ◌∷◌, [], IfOk, OnOk, length, map};
ghost use Rattle.cut_flows.specs.Flows as spec;

use crate::pipes::index_of;
use crate::{Flow, Pipes};
use plan_leaves::Items;
use plan_pipes::{Breaker, Step};
use plan_typed::SortKey;
use rel_parts::{first_columns, key_exprs, key_orders};
use std::alloc::Global;
use sub_types::NoMemory;

/// A sort of rows of so many columns: the keys' values behind each row, the order by these columns, and then the row's own columns.
pub fn sort_flow(
    alloc: Global,
    pipes: &mut Pipes,
    flow: Flow,
    relation: u32,
    width: usize,
    keys: &Items<SortKey>,
) -> Result<Flow, NoMemory>
    ensures next { IfOk result (λ next. next ≡ spec.sorted_flow (length pipes.old) width) }
    ensures grown { OnOk result (pipes.new ≡ pipes.old ++ spec.sort_of flow relation width keys.now ∷ []) }
{
    let width = index_of(width)?;
    let exprs = key_exprs(alloc, keys.as_slice())?;
    let orders = key_orders(alloc, width, keys.as_slice())?;
    let columns = first_columns(alloc, width)?;
    let keyed = flow.with(Step::Project { relation, exprs })?;
    let sorted = pipes.through(alloc, keyed, Breaker::Sort(orders))?;
    let kept = sorted.with(Step::Keep(columns))?;
    Ok(kept)
}
