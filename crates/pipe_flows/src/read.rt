// What comes through steps behind a read relation.
ghost use Rattle.std.specs.Prelude.{◌≡◌, ◌∷◌, [], IfOk, OnOk, map};
ghost use Rattle.std.specs.List.{All};
ghost use Rattle.sub_types.specs.Stream.{Stream};
ghost use Rattle.world.specs.Counts.{HasCause};
ghost use Rattle.plan_denote.specs.Rows.{Row};
ghost use Rattle.plan_pipes.specs.Run.{through};
ghost use Rattle.plan_pipes.specs.RowMeaning.{row_steps};
ghost use Rattle.pipe_types.specs.Exact.{exact_steps};
ghost use Rattle.pipe_types.specs.Over.{AreStepsOver, IsBreakerOver};
ghost use Rattle.pipe_steps.specs.Tables.{joins_of, tables_seen};
ghost use Rattle.read_rounds.specs.Given.{ArePartsOf};
ghost use Rattle.fed_laws.specs.Fed.{IsReadAt};
ghost use Rattle.read_laws.specs.Typed.{IsTypedRead};
ghost use Rattle.open_blocks.specs.Files.{AreOpenFor, faults_of, files_at, files_seen};
ghost use Rattle.open_blocks.specs.Taken.{Adds};
ghost use Rattle.read_rounds.specs.Bodies.{HaveRead, reads_made};
ghost use Rattle.read_rounds.specs.Told.{TellsRows, blocks_at};
ghost use Rattle.pipe_flows.specs.Bodies.{HaveReadAt};
ghost use Rattle.pipe_flows.specs.Inputs.{columns_of, reads_seen, told_by, IsOpenFor};
ghost use Rattle.pipe_flows.specs.Receipts.{IsReceiptAt, IsReceiptOf};

use crate::counted::read_counted;
use crate::flowed::Flowed;
use crate::virtual_read::flow_virtual;
use open_blocks::ReadFiles;
use pipe_steps::BuiltTable;
use plan_pipes::{Breaker, Step};
use plan_typed::Source;
use read_rounds::{Crew, PipeSteps};
use read_sources::{ReadSource, source_at};
use run_words::PipeReceipt;
use std::alloc::Global;
use std::marker::{Send, Sync};
use std::sync::Wait;
use std::thread::Threads;
use sub_types::Ty;
use world::{FolderError, Gate, Reader};

/// What is kept for a breaker of what comes through the steps behind a read relation: the rows of its files, or those that stand in the
/// plan; its receipt is added. No plan's pipelines read what is no read relation, which is answered with `NoMemory`.
pub fn flow_read<H: Threads + Wait + Sync, R: Reader + Send, G: Gate>(
    crew: &Crew<'_, H, G>,
    alloc: Global,
    relation: u32,
    steps: &[Step],
    breaker: &Breaker,
    reads: &[ReadSource<'_>],
    files: &mut Vec<ReadFiles<R>>,
    tables: &[BuiltTable],
    receipts: &mut Vec<PipeReceipt>,
) -> Result<Flowed, FolderError>
    requires reads { All IsTypedRead (reads_seen reads.now) }
    requires files { All (IsOpenFor (reads_seen reads.now)) (map (files_seen R.bytes) files.old.items) }
    requires over { AreStepsOver (joins_of tables.now) (columns_of (reads_seen reads.now) relation) steps.now }
    requires breaker { IsBreakerOver (through exact_steps (joins_of tables.now) steps.now (columns_of (reads_seen reads.now) relation)) breaker.now }
    ensures stored { IfOk result (λ given. given.types.items ≡ through exact_steps (joins_of tables.now) steps.now (columns_of (reads_seen reads.now) relation)) }
    ensures parts { IfOk result (λ given. (input : Stream Row) × IsReadAt (told_by (map (files_seen R.bytes) files.old.items)) (reads_seen reads.now) relation input
        × ArePartsOf breaker.now given.types.items (through row_steps (tables_seen tables.now) steps.now input) given.parts.items) }
    ensures receipts { OnOk result (Adds (IsReceiptAt crew.now.workers (map (files_seen R.bytes) files.old.items) (reads_seen reads.now)) (relation ∷ []) receipts.old.items receipts.new.items) }
    ensures reads { OnOk result (HaveReadAt (reads_seen reads.now) (map (files_seen R.bytes) files.old.items) relation (reads_made R.reads files.old.items) (reads_made R.reads files.new.items)) }
    ensures seen { map (files_seen R.bytes) files.new.items ≡ map (files_seen R.bytes) files.old.items }
    ensures cause { HasCause FolderError.Failed (faults_of R.faults files.old.items) (faults_of R.faults files.new.items) result }
{
    let Some(read) = source_at(reads, relation) else {
        return Err(FolderError::NoMemory);
    };
    match read.source {
        Source::Named(_) => {
            let of_files = flow_named(
                crew, alloc, relation, read.types, steps, breaker, files, tables, receipts,
            )?;
            Ok(of_files)
        }
        Source::Rows(rows) => {
            let of_plan = flow_virtual(
                crew,
                alloc,
                relation,
                rows.as_slice(),
                read.types,
                steps,
                breaker,
                tables,
                receipts,
            )?;
            Ok(of_plan)
        }
    }
}

// The same of a relation that is read from files.
fn flow_named<H: Threads + Wait + Sync, R: Reader + Send, G: Gate>(
    crew: &Crew<'_, H, G>,
    alloc: Global,
    relation: u32,
    types: &[Ty],
    steps: &[Step],
    breaker: &Breaker,
    files: &mut Vec<ReadFiles<R>>,
    tables: &[BuiltTable],
    receipts: &mut Vec<PipeReceipt>,
) -> Result<Flowed, FolderError>
    requires open { All (λ one. one.relation ≡ relation → AreOpenFor types.now one) (map (files_seen R.bytes) files.old.items) }
    requires over { AreStepsOver (joins_of tables.now) types.now steps.now }
    requires breaker { IsBreakerOver (through exact_steps (joins_of tables.now) steps.now types.now) breaker.now }
    ensures stored { IfOk result (λ given. given.types.items ≡ through exact_steps (joins_of tables.now) steps.now types.now) }
    ensures parts { IfOk result (λ given. (input : Stream Row) × TellsRows (files_at relation (map (files_seen R.bytes) files.old.items)) input
        × ArePartsOf breaker.now given.types.items (through row_steps (tables_seen tables.now) steps.now input) given.parts.items) }
    ensures receipts { OnOk result (Adds (IsReceiptOf crew.now.workers) ((relation, blocks_at (files_at relation (map (files_seen R.bytes) files.old.items))) ∷ []) receipts.old.items receipts.new.items) }
    ensures reads { OnOk result (HaveRead relation (map (files_seen R.bytes) files.old.items) (reads_made R.reads files.old.items) (reads_made R.reads files.new.items)) }
    ensures seen { map (files_seen R.bytes) files.new.items ≡ map (files_seen R.bytes) files.old.items }
    ensures cause { HasCause FolderError.Failed (faults_of R.faults files.old.items) (faults_of R.faults files.new.items) result }
{
    let pipe = PipeSteps::new(steps, tables, types, breaker);
    let given = read_counted(crew, alloc, &pipe, relation, files, receipts)?;
    Ok(given)
}
