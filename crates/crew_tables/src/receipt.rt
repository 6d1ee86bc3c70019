// The receipt of a read relation.
ghost use Rattle.std.specs.Prelude.{◌≡◌, ◌≤◌, ◌+◌, ◌/◌, IfOk, map, vec_len};
ghost use Rattle.run_core.specs.Receipts.{lists_of, IsBalanced};
ghost use Rattle.crew_tables.specs.Receipts.{IsReceiptOf, batches_read};

use plan_reads::{Origin, PlanRead};
use run_core::Receipt;
use run_words::{PipeReceipt, one_receipt};
use std::alloc::Global;
use sub_types::NoMemory;

/// How many rows of a plan's own stand in a batch.
const BATCH_ROWS: u64 = 1024;

/// The receipt of a read relation whose files have so many blocks, by what the workers of its round did. The rows of the plan's own are
/// read by the first worker alone.
pub(crate) fn receipt_of(
    alloc: Global,
    read: &PlanRead,
    blocks: u64,
    receipts: Vec<Receipt>,
    left: Vec<u64>,
    workers: u32,
) -> Result<PipeReceipt, NoMemory>
    requires few { 1 ≤ workers }
    requires workers { vec_len receipts ≡ workers }
    requires balanced { IsBalanced blocks (map lists_of receipts.items) left.items }
    ensures { IfOk result (IsReceiptOf workers (read.now.relation, batches_read read.now.origin blocks)) }
{
    match read.origin {
        Origin::Named(_) => Ok(PipeReceipt {
            relation: read.relation,
            batches: blocks,
            left,
            workers: receipts,
        }),
        Origin::Rows(rows) => {
            let receipt = one_receipt(alloc, read.relation, rows.div_ceil(BATCH_ROWS), workers)?;
            Ok(receipt)
        }
    }
}

/// The same of a read relation without files: nothing is read, or the plan's own rows.
pub(crate) fn receipt_alone(
    alloc: Global,
    read: &PlanRead,
    workers: u32,
) -> Result<PipeReceipt, NoMemory>
    requires { 1 ≤ workers }
    ensures { IfOk result (IsReceiptOf workers (read.now.relation, batches_read read.now.origin 0)) }
{
    let receipt = one_receipt(alloc, read.relation, batches_alone(&read.origin), workers)?;
    Ok(receipt)
}

fn batches_alone(origin: &Origin) -> u64
    ensures { result ≡ batches_read origin.now 0 }
{
    match origin {
        Origin::Named(_) => 0,
        Origin::Rows(rows) => rows.div_ceil(BATCH_ROWS),
    }
}
