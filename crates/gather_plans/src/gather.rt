// The rows of a plan over open files, which are closed.
ghost use Rattle.std.specs.Prelude.{◌≡◌, ◌-◌, None, IfOk, map};
ghost use Rattle.std.specs.List.{All, AllZip};
ghost use Rattle.world.specs.Counts.{HasCause};
ghost use Rattle.batch.specs.BatchRows.{types_of};
ghost use Rattle.plan_typed.specs.Types.{columns_of};
ghost use Rattle.well_typed.specs.WellTyped.{IsWellTyped};
ghost use Rattle.denote_typed.specs.Holes.{AreAwaited};
ghost use Rattle.plan_reads.specs.Reads.{reads_of};
ghost use Rattle.plan_tables.specs.Open.{open_seen, AllReady, AllTold, count_open};
ghost use Rattle.crew_tables.specs.Receipts.{IsReceiptOf};
ghost use Rattle.plan_rounds.specs.Inputs.{gathered_stream};
ghost use Rattle.gather_plans.specs.Over.{AreRowsOver, input_of};

use open_blocks::{close_files, take_files};
use plan_rounds::{Crew, Gathered, run_plan};
use plan_tables::OpenRead;
use plan_typed::Holed;
use std::alloc::Global;
use std::marker::Sync;
use std::sync::Wait;
use std::thread::Threads;
use world::{Folder, FolderError, Gate};

/// The rows of a checked plan over the files that are open for its read relations, in batches of its columns' types, and the fault that
/// ends them, read and worked by the workers, whatever their turns are. Where no fault ends them there is a receipt for each read
/// relation, in order: its batches were claimed once, and each was finished by one worker or by the caller. A read that fails is an error
/// where no fault stands before it in its table. All readers are given back.
pub fn gather_plan<H: Threads + Wait + Sync, F: Folder, G: Gate>(
    crew: &Crew<'_, H, G>,
    alloc: Global,
    folder: &mut F,
    plan: &Holed,
    opened: Vec<OpenRead<F::R>>,
) -> Result<Gathered, FolderError>
    requires typed { IsWellTyped plan.now }
    requires awaited { AreAwaited plan.now.subs plan.now.typed.rel }
    requires reads { map (λ one. one.read) opened.items ≡ reads_of plan.now }
    requires ready { AllReady F.R.bytes opened.items }

    // They are those over some tables, and where the readers tell their bytes over those of the files.
    ensures rows { IfOk result (λ all. AreRowsOver (AllTold F.R.bytes opened.items) (map (open_seen F.R.bytes) opened.items) plan.now (gathered_stream all)) }
    ensures types { IfOk result (λ all. All (λ batch. types_of batch ≡ columns_of plan.now.typed.rel) all.batches.items) }
    ensures receipts { IfOk result (λ all. all.end ≡ None → AllZip (IsReceiptOf crew.now.workers) (map input_of (map (open_seen F.R.bytes) opened.items)) all.receipts.items) }

    ensures cause { HasCause FolderError.Failed (F.read_faults folder.old) (F.read_faults folder.new) result }
    ensures files { F.files folder.new ≡ F.files folder.old }
    ensures write_faults { F.write_faults folder.new ≡ F.write_faults folder.old }
    ensures lent { F.lent folder.new ≡ F.lent folder.old - count_open opened.items }
{
    let files = take_files(alloc, folder, opened)?;
    let mut files = files;
    let ran = run_plan(crew, alloc, plan, &mut files);
    let closed = close_files(alloc, folder, files);
    let all = ran?;
    closed?;
    Ok(all)
}
