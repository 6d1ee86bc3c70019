// The rows of a plan with subqueries.
ghost use Rattle.std.specs.Prelude.{◌≡◌, ◌≤◌, [], None, IfOk, OnOk, map};
ghost use Rattle.std.specs.List.{All, AllZip};
ghost use Rattle.world.specs.Counts.{HasCause};
ghost use Rattle.batch.specs.BatchRows.{types_of};
ghost use Rattle.plan_typed.specs.Types.{columns_of};
ghost use Rattle.well_typed.specs.WellTyped.{IsWellTyped};
ghost use Rattle.plan_denote.specs.Denote.{Tables};
ghost use Rattle.plan_denote.specs.Holes.{filled};
ghost use Rattle.plan_denote.specs.Subqueries.{denote_plan};
ghost use Rattle.denote_typed.specs.Holes.{AreAwaited};
ghost use Rattle.plan_reads.specs.Reads.{reads_of};
ghost use Rattle.cut_laws.specs.Found.{read_rels};
ghost use Rattle.cut_laws.specs.Reads as cut;
ghost use Rattle.open_blocks.specs.Files.{faults_of, files_seen};
ghost use Rattle.open_blocks.specs.Taken.{Adds};
ghost use Rattle.piece_batches.specs.Ended.{ended_stream};
ghost use Rattle.table_engine.specs.Inputs.{AreTablesOf, IsReceiptAt, IsReceiptOf, gathered_stream};
ghost use Rattle.sub_query.specs.Known.{found_seen, known_seen};
ghost use Rattle.plan_rounds.specs.Inputs.{AreRowsOf, IsOpenRead, IsWorthOf, input_read};
ghost use Rattle.plan_rounds.specs.Known.{AreWorths};
ghost use Rattle.plan_rounds.specs.Ready.{IsReady};

use crate::receipts::put_in_order;
use open_blocks::ReadFiles;
use piece_batches::EndedBatches;
use plan_typed::{Holed, Rel, Sub};
use run_words::PipeReceipt;
use std::alloc::Global;
use std::marker::{Send, Sync};
use std::sync::Wait;
use std::thread::Threads;
use sub_query::{KnownWorth, Worth, filled_rel, worth_of_batches};
use sub_types::Fault;
use table_engine::{Crew, Gathered, run_tree};
use world::{FolderError, Gate, Reader};

/// The rows of a checked plan in batches of its columns' types, and the fault that ends them, over the open files of its read relations,
/// those of its subqueries among them, by so many workers, whatever their turns are. Each subquery is run once, after the values of the
/// earlier ones were put in; the first fault of one is the plan's. Where no fault ends the rows there is a receipt for each read relation,
/// by their numbers. The files stay in their places. A read that fails is an error where no fault stands before it in its table.
pub fn run_plan<H: Threads + Wait + Sync, R: Reader + Send, G: Gate>(
    crew: &Crew<'_, H, G>,
    alloc: Global,
    plan: &Holed,
    files: &mut Vec<ReadFiles<R>>,
) -> Result<Gathered, FolderError>
    requires typed { IsWellTyped plan.now }
    requires awaited { AreAwaited plan.now.subs plan.now.typed.rel }
    requires files { AllZip IsOpenRead (reads_of plan.now) (map (files_seen R.bytes) files.old.items) }

    // The rows are those of the plan over tables that are those of the files, wherever these tell their bytes.
    ensures rows { IfOk result (λ all. (tables : Tables) × AreTablesOf (map (files_seen R.bytes) files.old.items) tables × (gathered_stream all ≡ denote_plan tables plan.now)) }
    ensures types { IfOk result (λ all. All (λ batch. types_of batch ≡ columns_of plan.now.typed.rel) all.batches.items) }

    // Each batch of a read relation was claimed once, and finished by one worker or by the caller.
    ensures receipts { IfOk result (λ all. all.end ≡ None → AllZip (IsReceiptOf crew.now.workers) (map (input_read (map (files_seen R.bytes) files.old.items)) (reads_of plan.now)) all.receipts.items) }

    ensures seen { map (files_seen R.bytes) files.new.items ≡ map (files_seen R.bytes) files.old.items }
    ensures cause { HasCause FolderError.Failed (faults_of R.faults files.old.items) (faults_of R.faults files.new.items) result }
{
    let mut receipts = Vec::new(alloc);
    match worths_of(crew, alloc, plan, files, &mut receipts)? {
        Ok(known) => {
            let all = rows_filled(crew, alloc, &plan.typed.rel, &known, files, &mut receipts)?;
            put_in_order(&mut receipts)?;
            let EndedBatches { batches, end } = all;
            Ok(Gathered {
                batches,
                end,
                receipts,
            })
        }
        Err(fault) => Ok(Gathered {
            batches: Vec::new(alloc),
            end: Some(fault),
            receipts,
        }),
    }
}

/// What the subqueries are worth, or the first fault, and the receipts of their read relations. The main relation may be run once what
/// they are worth is put in.
fn worths_of<H: Threads + Wait + Sync, R: Reader + Send, G: Gate>(
    crew: &Crew<'_, H, G>,
    alloc: Global,
    plan: &Holed,
    files: &mut Vec<ReadFiles<R>>,
    receipts: &mut Vec<PipeReceipt>,
) -> Result<Result<Vec<KnownWorth>, Fault>, FolderError>
    requires typed { IsWellTyped plan.now }
    requires awaited { AreAwaited plan.now.subs plan.now.typed.rel }
    requires files { AllZip IsOpenRead (reads_of plan.now) (map (files_seen R.bytes) files.old.items) }
    requires none { receipts.old.items ≡ [] }
    ensures worths { IfOk result (λ found. AreWorths crew.now.workers (map (files_seen R.bytes) files.old.items) plan.now found receipts.new.items) }
    ensures seen { map (files_seen R.bytes) files.new.items ≡ map (files_seen R.bytes) files.old.items }
    ensures cause { HasCause FolderError.Failed (faults_of R.faults files.old.items) (faults_of R.faults files.new.items) result }
{
    let mut known = Vec::new(alloc);
    for sub in plan.subs.as_slice() {
        match worth_of_sub(crew, alloc, sub, &known, files, receipts)? {
            Ok(worth) => known.push(KnownWorth {
                hole: sub.hole,
                worth,
            })?,
            Err(fault) => return Ok(Err(fault)),
        }
    }
    Ok(Ok(known))
}

/// What a subquery is worth once the values of the earlier ones are put in, or its fault.
fn worth_of_sub<H: Threads + Wait + Sync, R: Reader + Send, G: Gate>(
    crew: &Crew<'_, H, G>,
    alloc: Global,
    sub: &Sub,
    known: &[KnownWorth],
    files: &mut Vec<ReadFiles<R>>,
    receipts: &mut Vec<PipeReceipt>,
) -> Result<Result<Worth, Fault>, FolderError>
    requires ready { IsReady (filled (known_seen known.now) sub.now.rel) (map (files_seen R.bytes) files.old.items) }
    ensures worth { IfOk result (λ found. IsWorthOf (map (files_seen R.bytes) files.old.items) sub.now (filled (known_seen known.now) sub.now.rel) (found_seen found)) }
    ensures receipts { OnOk result (Adds (IsReceiptAt crew.now.workers (map (files_seen R.bytes) files.old.items) (read_rels (filled (known_seen known.now) sub.now.rel))) (cut.reads_of (filled (known_seen known.now) sub.now.rel)) receipts.old.items receipts.new.items) }
    ensures seen { map (files_seen R.bytes) files.new.items ≡ map (files_seen R.bytes) files.old.items }
    ensures cause { HasCause FolderError.Failed (faults_of R.faults files.old.items) (faults_of R.faults files.new.items) result }
{
    let all = rows_filled(crew, alloc, &sub.rel, known, files, receipts)?;
    if let Some(fault) = all.end {
        return Ok(Err(fault));
    }
    let worth = worth_of_batches(alloc, sub, &all.batches)?;
    Ok(worth)
}

/// The rows of a relation with what is known put in, and the receipts of its read relations.
fn rows_filled<H: Threads + Wait + Sync, R: Reader + Send, G: Gate>(
    crew: &Crew<'_, H, G>,
    alloc: Global,
    rel: &Rel,
    known: &[KnownWorth],
    files: &mut Vec<ReadFiles<R>>,
    receipts: &mut Vec<PipeReceipt>,
) -> Result<EndedBatches, FolderError>
    requires ready { IsReady (filled (known_seen known.now) rel.now) (map (files_seen R.bytes) files.old.items) }
    ensures rows { IfOk result (λ all. AreRowsOf (map (files_seen R.bytes) files.old.items) (filled (known_seen known.now) rel.now) (ended_stream all)) }
    ensures types { IfOk result (λ all. All (λ batch. types_of batch ≡ columns_of (filled (known_seen known.now) rel.now)) all.batches.items) }
    ensures receipts { OnOk result (Adds (IsReceiptAt crew.now.workers (map (files_seen R.bytes) files.old.items) (read_rels (filled (known_seen known.now) rel.now))) (cut.reads_of (filled (known_seen known.now) rel.now)) receipts.old.items receipts.new.items) }
    ensures seen { map (files_seen R.bytes) files.new.items ≡ map (files_seen R.bytes) files.old.items }
    ensures cause { HasCause FolderError.Failed (faults_of R.faults files.old.items) (faults_of R.faults files.new.items) result }
{
    let filled = filled_rel(alloc, rel, known)?;
    let all = run_tree(crew.rt, alloc, filled, files, crew.workers, crew.gate)?;
    let Gathered {
        batches,
        end,
        receipts: more,
    } = all;
    let mut more = more;
    receipts.append(&mut more)?;
    Ok(EndedBatches { batches, end })
}
