// The rows of a relation.
ghost use Rattle.std.specs.Prelude.{◌≡◌, ◌≤◌, IfOk, OnOk, map};
ghost use Rattle.std.specs.List.{All, AllByRecursion, AllZip};
ghost use Rattle.sub_types.specs.Value.{Fits};
ghost use Rattle.world.specs.Counts.{HasCause};
ghost use Rattle.batch.specs.BatchRows.{types_of};
ghost use Rattle.plan_typed.specs.Numbers.{numbers_of};
ghost use Rattle.plan_typed.specs.Types as types;
ghost use Rattle.well_typed.specs.WellTyped.{AreTyped, AllDiffer};
ghost use Rattle.plan_denote.specs.Denote.{Tables, denote};
ghost use Rattle.plan_pipes.specs.Run.{nothing_yet, run_on};
ghost use Rattle.pipe_types.specs.Exact.{exact_over};
ghost use Rattle.cut_flows.specs.Given.{fed_in};
ghost use Rattle.cut_laws.specs.Found.{read_rels};
ghost use Rattle.cut_laws.specs.Reads.{reads_of};
ghost use Rattle.read_laws.specs.Typed.{IsTypedRead};
ghost use Rattle.open_blocks.specs.Files.{faults_of, files_seen};
ghost use Rattle.open_blocks.specs.Taken.{Adds};
ghost use Rattle.pipe_feeds.specs.Kept.{AreTypedAs};
ghost use Rattle.pipe_flows.specs.Bodies.{HaveReadInTurn, reads_made};
ghost use Rattle.pipe_flows.specs.Inputs.{columns_of, reads_seen, IsOpenFor};
ghost use Rattle.pipe_flows.specs.Receipts.{IsReceiptAt};
ghost use Rattle.table_engine.specs.Bodies.{AreBodiesRead};
ghost use Rattle.table_engine.specs.Inputs.{gathered_stream, AreTablesOf};
ghost use Rattle.pipe_runs.specs.Stands as spec;

use batch::Batch;
use open_blocks::ReadFiles;
use piece_batches::{EndedBatches, in_batches};
use pipe_feeds::{Stores, take_stored};
use pipe_runs::{Crew, run_pipe};
use plan_cut::cut;
use plan_leaves::Items;
use plan_pipes::Pipe;
use plan_typed::{Rel, Typed};
use read_sources::{ReadSource, sources_of};
use run_words::PipeReceipt;
use std::alloc::Global;
use std::marker::{Send, Sync};
use std::sync::Wait;
use std::thread::Threads;
use sub_types::Fault;
use world::{FolderError, Gate, Reader};

/// The rows of a relation in batches, the fault that ends them, and for each read relation what the workers did with its batches.
#[derive(Debug, Drop)]
pub struct Gathered {
    pub batches: Vec<Batch>,
    pub end: Option<Fault>,
    pub receipts: Vec<PipeReceipt>,
}

/// The rows of a checked relation over the files of its read relations, in batches of the types of its columns, by so many workers,
/// whatever their turns are; with a receipt for each read relation, in the order in which they are read. The files stay in their places. A
/// read that fails is an error where no fault stands before it in its table.
pub fn run_tree<H: Threads + Wait + Sync, R: Reader + Send, G: Gate>(
    rt: &H,
    alloc: Global,
    rel: Rel,
    files: &mut Vec<ReadFiles<R>>,
    workers: u32,
    gate: &G,
) -> Result<Gathered, FolderError>
    requires workers { (1 ≤ workers) × (workers ≤ 64) }
    requires typed { AreTyped rel }
    requires numbers { AllDiffer (numbers_of rel) }
    requires files { All (IsOpenFor (read_rels rel)) (map (files_seen R.bytes) files.old.items) }

    // The rows are those of the relation over tables that are those of the files, wherever these tell their bytes.
    ensures rows { IfOk result (λ all. (tables : Tables) × AreTablesOf (map (files_seen R.bytes) files.old.items) tables × (gathered_stream all ≡ denote tables rel)) }
    ensures types { IfOk result (λ all. All (λ batch. types_of batch ≡ types.columns_of rel) all.batches.items) }
    ensures fit { IfOk result (λ all. AllByRecursion (Fits (types.columns_of rel)) (gathered_stream all).rows) }

    // Each batch of a read relation was claimed once, and finished by one worker or by the caller.
    ensures receipts { IfOk result (λ all. AllZip (IsReceiptAt workers (map (files_seen R.bytes) files.old.items) (read_rels rel)) (reads_of rel) all.receipts.items) }

    // Over all workers the body of each good block of the files is read once.
    ensures reads { OnOk result (AreBodiesRead (read_rels rel) (reads_of rel) (map (files_seen R.bytes) files.old.items) (reads_made R.reads files.old.items) (reads_made R.reads files.new.items)) }

    ensures seen { map (files_seen R.bytes) files.new.items ≡ map (files_seen R.bytes) files.old.items }
    ensures cause { HasCause FolderError.Failed (faults_of R.faults files.old.items) (faults_of R.faults files.new.items) result }
{
    let crew = Crew { rt, gate, workers };
    let typed = Typed {
        names: Items::new(alloc),
        rel,
    };
    let all = run_typed(&crew, alloc, &typed, files)?;
    Ok(all)
}

fn run_typed<H: Threads + Wait + Sync, R: Reader + Send, G: Gate>(
    crew: &Crew<'_, H, G>,
    alloc: Global,
    typed: &Typed,
    files: &mut Vec<ReadFiles<R>>,
) -> Result<Gathered, FolderError>
    requires typed { AreTyped typed.now.rel }
    requires numbers { AllDiffer (numbers_of typed.now.rel) }
    requires files { All (IsOpenFor (read_rels typed.now.rel)) (map (files_seen R.bytes) files.old.items) }
    ensures rows { IfOk result (λ all. (tables : Tables) × AreTablesOf (map (files_seen R.bytes) files.old.items) tables × (gathered_stream all ≡ denote tables typed.now.rel)) }
    ensures types { IfOk result (λ all. All (λ batch. types_of batch ≡ types.columns_of typed.now.rel) all.batches.items) }
    ensures fit { IfOk result (λ all. AllByRecursion (Fits (types.columns_of typed.now.rel)) (gathered_stream all).rows) }
    ensures receipts { IfOk result (λ all. AllZip (IsReceiptAt crew.now.workers (map (files_seen R.bytes) files.old.items) (read_rels typed.now.rel)) (reads_of typed.now.rel) all.receipts.items) }
    ensures reads { OnOk result (AreBodiesRead (read_rels typed.now.rel) (reads_of typed.now.rel) (map (files_seen R.bytes) files.old.items) (reads_made R.reads files.old.items) (reads_made R.reads files.new.items)) }
    ensures seen { map (files_seen R.bytes) files.new.items ≡ map (files_seen R.bytes) files.old.items }
    ensures cause { HasCause FolderError.Failed (faults_of R.faults files.old.items) (faults_of R.faults files.new.items) result }
{
    let pipes = cut(alloc, typed)?;
    let reads = sources_of(alloc, &typed.rel)?;
    let last = pipes.len() - 1;
    let mut receipts = Vec::new(alloc);
    let mut stores = run_pipes(crew, alloc, pipes, &reads, files, &mut receipts)?;
    let Some(pieces) = take_stored(&mut stores.streams, last) else {
        return Err(FolderError::NoMemory);
    };
    let all = in_batches(alloc, typed.rel.columns.as_slice(), pieces.into_vec())?;
    let EndedBatches { batches, end } = all;
    Ok(Gathered {
        batches,
        end,
        receipts,
    })
}

/// Runs pipelines in order, and adds the receipts of the read relations that feed them.
fn run_pipes<H: Threads + Wait + Sync, R: Reader + Send, G: Gate>(
    crew: &Crew<'_, H, G>,
    alloc: Global,
    pipes: Vec<Pipe>,
    reads: &[ReadSource<'_>],
    files: &mut Vec<ReadFiles<R>>,
    receipts: &mut Vec<PipeReceipt>,
) -> Result<Stores, FolderError>
    requires reads { All IsTypedRead (reads_seen reads.now) }
    requires files { All (IsOpenFor (reads_seen reads.now)) (map (files_seen R.bytes) files.old.items) }
    requires over { spec.ArePipesOn (columns_of (reads_seen reads.now)) nothing_yet pipes.items }
    ensures types { IfOk result (λ stores. spec.types_in stores ≡ run_on (exact_over (columns_of (reads_seen reads.now))) nothing_yet pipes.items) }
    ensures typed { IfOk result (λ stores. AreTypedAs stores.types.items stores.streams.items) }
    ensures rows { IfOk result (spec.HaveRun (map (files_seen R.bytes) files.old.items) (reads_seen reads.now) pipes.items) }
    ensures receipts { OnOk result (Adds (IsReceiptAt crew.now.workers (map (files_seen R.bytes) files.old.items) (reads_seen reads.now)) (fed_in pipes.items) receipts.old.items receipts.new.items) }
    ensures reads { OnOk result (HaveReadInTurn (reads_seen reads.now) (map (files_seen R.bytes) files.old.items) (fed_in pipes.items) (reads_made R.reads files.old.items) (reads_made R.reads files.new.items)) }
    ensures seen { map (files_seen R.bytes) files.new.items ≡ map (files_seen R.bytes) files.old.items }
    ensures cause { HasCause FolderError.Failed (faults_of R.faults files.old.items) (faults_of R.faults files.new.items) result }
{
    let mut stores = Stores::new(alloc);
    for pipe in pipes {
        run_pipe(crew, alloc, pipe, reads, files, &mut stores, receipts)?;
    }
    Ok(stores)
}
