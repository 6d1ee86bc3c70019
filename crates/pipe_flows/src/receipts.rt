// The receipts of read relations.
ghost use Rattle.std.specs.Prelude.{◌≡◌, ◌∷◌, [], OnOk, length, map, vec_len};
ghost use Rattle.run_core.specs.Receipts.{lists_of, IsBalanced};
ghost use Rattle.open_blocks.specs.Taken.{Adds};
ghost use Rattle.pipe_flows.specs.Receipts.{IsReceiptOf};

use run_core::Receipt;
use run_words::PipeReceipt;
use sub_types::NoMemory;

/// Adds the receipt of a read relation of so many batches.
pub(crate) fn add_receipt(
    receipts: &mut Vec<PipeReceipt>,
    relation: u32,
    batches: u64,
    left: Vec<u64>,
    workers: Vec<Receipt>,
) -> Result<(), NoMemory>
    requires balanced { IsBalanced batches (map lists_of workers.items) left.items }
    ensures added { OnOk result (Adds (IsReceiptOf (vec_len workers)) ((relation, batches) ∷ []) receipts.old.items receipts.new.items) }
{
    receipts.push(PipeReceipt {
        relation,
        batches,
        left,
        workers,
    })?;
    Ok(())
}
