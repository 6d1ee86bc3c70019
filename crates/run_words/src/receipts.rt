// The receipts of a run on the calling thread.
ghost use Rattle.std.specs.Prelude.{◌≡◌, ◌≤◌, length, IfOk, [], map};
ghost use Rattle.std.specs.List.{range_with_len};
ghost use Rattle.run_core.specs.Receipts.{IsBalanced, lists_of};
ghost use Rattle.run_words.specs.Alone.{alone, workers_alone};

use crate::status::PipeReceipt;
use run_core::Receipt;
use std::alloc::Global;
use sub_types::NoMemory;

/// The receipt of the read relation of a number, whose table has so many batches: the first worker claimed and finished them all.
#[tactic(auto, using(crate::proofs::AloneLaws::balanced_alone))]
pub fn one_receipt(
    alloc: Global,
    relation: u32,
    batches: u64,
    workers: u32,
) -> Result<PipeReceipt, NoMemory>
    requires workers { 1 ≤ workers }
    ensures relation { IfOk result (λ receipt. receipt.relation ≡ relation) }
    ensures batches { IfOk result (λ receipt. receipt.batches ≡ batches) }
    ensures workers { IfOk result (λ receipt. length receipt.workers.items ≡ workers) }
    ensures balanced { IfOk result (λ receipt. IsBalanced receipt.batches (map lists_of receipt.workers.items) receipt.left.items) }
{
    Ok(PipeReceipt {
        relation,
        batches,
        left: Vec::new(alloc),
        workers: worker_receipts(alloc, batches, workers)?,
    })
}

// The first worker did all there was, and the others nothing.
fn worker_receipts(alloc: Global, batches: u64, workers: u32) -> Result<Vec<Receipt>, NoMemory>
    requires workers { 1 ≤ workers }
    ensures lists { IfOk result (λ receipts. map lists_of receipts.items ≡ workers_alone batches workers) }
    ensures len { IfOk result (λ receipts. length receipts.items ≡ workers) }
{
    let mut receipts = Vec::new(alloc);
    receipts.push(worked(alloc, batches)?)?;
    for _ in 1..workers {
        receipts.push(Receipt::new(alloc))?;
    }
    Ok(receipts)
}

// Each batch was claimed and finished, in order.
fn worked(alloc: Global, batches: u64) -> Result<Receipt, NoMemory>
    ensures { IfOk result (λ receipt. lists_of receipt ≡ alone batches) }
{
    let mut receipt = Receipt::new(alloc);
    for number in 0..batches {
        receipt.claimed.push(number)?;
        receipt.finished.push(number)?;
    }
    Ok(receipt)
}
