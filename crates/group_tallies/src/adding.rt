// One more value of a group.
ghost use Rattle.std.specs.Prelude.{◌≡◌, ◌<◌, ◌^◌, ◌||◌, length, map, slice_index_or};
ghost use Rattle.std.specs.Ordering.{is_gt, is_lt};
ghost use Rattle.plan_denote.specs.Computed.{is_null as spec_is_null};
ghost use Rattle.plan_denote.specs.Order.{number_in as spec_number_in, value_cmp};
ghost use Rattle.group_tallies.specs.declared.tallies.Keeping.TheVariants as keepings;
ghost use Rattle.group_tallies.specs.Kept.{counted, totalled, least_kept, greatest_kept, kept_of, with_tally};

use crate::running::Running;
use eval_values::{compare, is_null};
use sub_types::Value;

pub(crate) fn count_one(counts: &mut Vec<u64>, group: usize, value: &Value)
    requires group { group < length counts.old.items }
    requires room { (n : _) → slice_index_or counts.old.items group n < 2 ^ 62 }
    ensures { map counted counts.new.items ≡ with_tally (map counted counts.old.items) group (kept_of keepings.Count value.now) }
{
    if is_null(value) {
        return;
    }
    counts[group] += 1;
}

pub(crate) fn total_one(totals: &mut Vec<Running>, group: usize, value: &Value)
    requires group { group < length totals.old.items }
    requires room { (r : _) → (slice_index_or totals.old.items group r).count < 2 ^ 62 }
    ensures { map totalled totals.new.items ≡ with_tally (map totalled totals.old.items) group (kept_of keepings.Total value.now) }
{
    if is_null(value) {
        return;
    }
    let running = totals[group];
    totals[group] = running.with(number_in(value));
}

pub(crate) fn least_one(bests: &mut Vec<Value>, group: usize, value: Value)
    requires { group < length bests.old.items }
    ensures { map least_kept bests.new.items ≡ with_tally (map least_kept bests.old.items) group (kept_of keepings.Least value) }
{
    if is_null(&value) {
        return;
    }
    if is_lesser(&value, &bests[group]) {
        bests[group] = value;
    }
}

pub(crate) fn greatest_one(bests: &mut Vec<Value>, group: usize, value: Value)
    requires { group < length bests.old.items }
    ensures { map greatest_kept bests.new.items ≡ with_tally (map greatest_kept bests.old.items) group (kept_of keepings.Greatest value) }
{
    if is_null(&value) {
        return;
    }
    if is_greater(&value, &bests[group]) {
        bests[group] = value;
    }
}

/// Whether a value is less than the best one, or there is none yet.
pub(crate) fn is_lesser(value: &Value, best: &Value) -> bool
    ensures { result ≡ (spec_is_null best.now || is_lt (value_cmp value.now best.now)) }
{
    is_null(best) || compare(value, best).is_lt()
}

/// Whether a value is greater than the best one, or there is none yet.
pub(crate) fn is_greater(value: &Value, best: &Value) -> bool
    ensures { result ≡ (spec_is_null best.now || is_gt (value_cmp value.now best.now)) }
{
    is_null(best) || compare(value, best).is_gt()
}

fn number_in(value: &Value) -> i128
    ensures { result ≡ spec_number_in value.now }
{
    match value {
        Value::Int(number) => i128::from(*number),
        Value::Dec(number) => *number,
        _ => 0,
    }
}
