// What is kept of further values of a group.
ghost use Rattle.std.specs.Prelude.{◌≡◌, ◌+◌, ◌<◌, ◌≤◌, ◌^◌, length, map, OnOk, OnErr};
ghost use Rattle.group_tallies.specs.Kept.{counted, totalled, least_kept, greatest_kept, tally_at, with_tally};

use crate::adding::{greatest_one, least_one};
use crate::running::Running;
use std::alloc::Global;
use sub_types::{NoMemory, Value};

pub(crate) fn counts_from(counts: &mut Vec<u64>, group: usize, later: &Vec<u64>, from: usize)
    requires group { group < length counts.old.items }
    requires from { from < length later.now.items }
    requires room { (tally_at (map counted counts.old.items) group).count + (tally_at (map counted later.now.items) from).count ≤ 2 ^ 62 }
    ensures { map counted counts.new.items ≡ with_tally (map counted counts.old.items) group (tally_at (map counted later.now.items) from) }
{
    let more = later[from];
    counts[group] += more;
}

pub(crate) fn totals_from(
    totals: &mut Vec<Running>,
    group: usize,
    later: &Vec<Running>,
    from: usize,
)
    requires group { group < length totals.old.items }
    requires from { from < length later.now.items }
    requires room { (tally_at (map totalled totals.old.items) group).count + (tally_at (map totalled later.now.items) from).count ≤ 2 ^ 62 }
    ensures { map totalled totals.new.items ≡ with_tally (map totalled totals.old.items) group (tally_at (map totalled later.now.items) from) }
{
    let more = later[from];
    let running = totals[group];
    totals[group] = running.and(more);
}

pub(crate) fn least_from(
    alloc: Global,
    bests: &mut Vec<Value>,
    group: usize,
    later: &Vec<Value>,
    from: usize,
) -> Result<(), NoMemory>
    requires group { group < length bests.old.items }
    requires from { from < length later.now.items }
    ensures ok { OnOk result (map least_kept bests.new.items ≡ with_tally (map least_kept bests.old.items) group (tally_at (map least_kept later.now.items) from)) }
    ensures err { OnErr result (bests.new ≡ bests.old) }
{
    let value = later[from].copy(alloc)?;
    least_one(bests, group, value);
    Ok(())
}

pub(crate) fn greatest_from(
    alloc: Global,
    bests: &mut Vec<Value>,
    group: usize,
    later: &Vec<Value>,
    from: usize,
) -> Result<(), NoMemory>
    requires group { group < length bests.old.items }
    requires from { from < length later.now.items }
    ensures ok { OnOk result (map greatest_kept bests.new.items ≡ with_tally (map greatest_kept bests.old.items) group (tally_at (map greatest_kept later.now.items) from)) }
    ensures err { OnErr result (bests.new ≡ bests.old) }
{
    let value = later[from].copy(alloc)?;
    greatest_one(bests, group, value);
    Ok(())
}
