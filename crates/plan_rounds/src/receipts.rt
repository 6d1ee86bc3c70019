// The receipts of a plan's read relations, by the numbers of these.
ghost use Rattle.std.specs.Prelude.{◌≡◌, ◌++◌, OnOk, OnErr};
ghost use Rattle.plan_denote.specs.Sort.{arranged};
ghost use Rattle.plan_rounds.specs.Receipts.{by_number};

use run_words::PipeReceipt;
use sub_types::NoMemory;

/// Puts receipts in the order of their relations' numbers.
pub(crate) fn put_in_order(receipts: &mut Vec<PipeReceipt>) -> Result<(), NoMemory>
    ensures { OnOk result (receipts.new.items ≡ arranged by_number receipts.old.items) }
{
    receipts.sort_by(|a, b| a.relation.cmp(&b.relation))?;
    Ok(())
}
