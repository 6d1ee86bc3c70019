// The out file of a plan's rows.
ghost use Rattle.std.specs.Prelude.{◌≡◌, ◌≢◌, ◌<◌, ◌≤◌, ℕ, List, MatchOption, Ok, length, nat_le};
ghost use Rattle.std.specs.List.{All, AllZip, flat_map, sum_by};
ghost use Rattle.world.specs.Counts.{Rose};
ghost use Rattle.batch.specs.BatchRows.{rows_of, types_of};
ghost use Rattle.plan_typed.specs.Types.{columns_of};
ghost use Rattle.run_words.specs.ReadingSeen.{reading_seen};
ghost use Rattle.run_accepted.specs.Done as spec;
ghost use Rattle.crew_tables.specs.Receipts.{IsReceiptOf};
ghost use Rattle.run_accepted.specs.Fits.{FitsFiles, IsOutcome};

use arrow_write::{WriteError, write_file};
use batch::Batch;
use plan_typed::Holed;
use run_words::{PipeReceipt, Reading, Report, Status};
use std::alloc::Global;
use sub_types::{ByteList, Fault, FaultKind};
use world::Folder;

/// The most rows of an answer.
const MAX_ROWS: usize = 1 << 36;

/// The most bytes of a plan, and so of the names of its columns together.
const MAX_NAMES: usize = 16_777_216;

/// Writes the rows of a plan, which stand in batches of its columns' types, unless they are too many, and reports them with these
/// receipts.
#[tactic(auto, unfolding(crate::specs::Done::done_with))]
pub fn write_batches<F: Folder>(
    alloc: Global,
    folder: &mut F,
    reading: Reading<'_>,
    plan: &Holed,
    batches: &[Batch],
    receipts: Vec<PipeReceipt>,
) -> Status
    requires same { length plan.now.typed.names ≡ length (columns_of plan.now.typed.rel) }
    requires few { length (columns_of plan.now.typed.rel) ≤ 1024 }
    requires typed { All (λ batch. types_of batch ≡ columns_of plan.now.typed.rel) batches.now }
    ensures files { (inputs : List (ℕ × ℕ)) → AllZip (IsReceiptOf reading.entry.workers) inputs receipts.items
        → FitsFiles (spec.done_with (reading_seen reading.entry) plan.now inputs (flat_map rows_of batches.now)) (F.files folder.old) (F.files folder.new) result }
    ensures named { IsOutcome plan.now result }
    ensures reads_nothing { result ≢ Status.ReadFault }
    ensures read_faults { F.read_faults folder.new ≡ F.read_faults folder.old }
    ensures write_fault { result ≡ Status.WriteFault → Rose (F.write_faults folder.old) (F.write_faults folder.new) }
    ensures lent { F.lent folder.new ≡ F.lent folder.old }
{
    let Some(rows) = count_rows(batches) else {
        return too_many_rows();
    };
    let report = Report { rows, receipts };
    write_counted(alloc, folder, reading, plan, batches, report)
}

/// How many rows the batches have, unless an answer may not have so many.
fn count_rows(batches: &[Batch]) -> Option<u64>
    ensures { MatchOption result (spec.MAX_ROWS < length (flat_map rows_of batches.now)) (λ rows.
        (rows ≡ length (flat_map rows_of batches.now)) × (rows ≤ spec.MAX_ROWS)) }
{
    let mut left = MAX_ROWS as u64;
    for batch in batches {
        if batch.rows > left {
            return None;
        }
        left -= batch.rows;
    }
    Some(MAX_ROWS as u64 - left)
}

/// Writes the batches of an answer's rows, whose number and receipts are reported.
#[tactic(auto, using(crate::proofs::RowLaws::few_rows))]
fn write_counted<F: Folder>(
    alloc: Global,
    folder: &mut F,
    reading: Reading<'_>,
    plan: &Holed,
    batches: &[Batch],
    report: Report,
) -> Status
    requires same { length plan.now.typed.names ≡ length (columns_of plan.now.typed.rel) }
    requires few { length (columns_of plan.now.typed.rel) ≤ 1024 }
    requires typed { All (λ batch. types_of batch ≡ columns_of plan.now.typed.rel) batches.now }
    requires few_rows { length (flat_map rows_of batches.now) ≤ spec.MAX_ROWS }
    requires rows { report.rows ≡ length (flat_map rows_of batches.now) }
    ensures files { (inputs : List (ℕ × ℕ)) → AllZip (IsReceiptOf reading.entry.workers) inputs report.receipts.items
        → FitsFiles (Ok (spec.done_of (reading_seen reading.entry) plan.now inputs (flat_map rows_of batches.now))) (F.files folder.old) (F.files folder.new) result }
    ensures named { IsOutcome plan.now result }
    ensures reads_nothing { result ≢ Status.ReadFault }
    ensures read_faults { F.read_faults folder.new ≡ F.read_faults folder.old }
    ensures write_fault { result ≡ Status.WriteFault → Rose (F.write_faults folder.old) (F.write_faults folder.new) }
    ensures lent { F.lent folder.new ≡ F.lent folder.old }
{
    let names = plan.typed.names.as_slice();
    // No plan has longer names, since they stand in its bytes.
    if !are_short(names) {
        return Status::NoMemory;
    }
    match write_file(
        alloc,
        folder,
        reading.out,
        names,
        plan.typed.rel.columns.as_slice(),
        batches,
    ) {
        Ok(()) => Status::Ok(report),
        Err(WriteError::WriteFault) => Status::WriteFault,
        Err(WriteError::NoMemory) => Status::NoMemory,
    }
}

/// Whether the names have together no more bytes than a plan.
fn are_short(names: &[ByteList]) -> bool
    ensures { result ≡ nat_le (sum_by length names.now) 16777216 }
{
    let mut left = MAX_NAMES;
    for name in names {
        if name.len() > left {
            return false;
        }
        left -= name.len();
    }
    true
}

/// The answer has more rows than it may have.
fn too_many_rows() -> Status
    ensures { result ≡ Status.DataFault (record { relation = 0; kind = FaultKind.TooManyRows }) }
{
    Status::DataFault {
        fault: Fault {
            relation: 0,
            kind: FaultKind::TooManyRows,
        },
    }
}
