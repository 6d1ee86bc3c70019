// One pipeline.
ghost use Rattle.std.specs.Prelude.{◌≡◌, ◌++◌, ◌∷◌, [], ℕ, List, Some, IfOk, OnOk, map};
ghost use Rattle.std.specs.List.{All};
ghost use Rattle.sub_types.specs.declared.kind.Ty.{Ty};
ghost use Rattle.sub_types.specs.Stream.{Stream, ended};
ghost use Rattle.world.specs.Counts.{HasCause};
ghost use Rattle.well_typed.specs.WellTyped.{AreAll};
ghost use Rattle.plan_denote.specs.Denote.{Tables};
ghost use Rattle.plan_denote.specs.Rows.{Row};
ghost use Rattle.plan_pipes.specs.declared.pipe.Breaker.TheVariants as breakers;
ghost use Rattle.plan_pipes.specs.Run.{after, built, fed, flow};
ghost use Rattle.plan_pipes.specs.RowMeaning.{gathered, rows_over, table_of};
ghost use Rattle.pipe_types.specs.Exact.{exact_over, gathered_types};
ghost use Rattle.pipe_types.specs.Over.{AreStepsOver, IsBreakerOver, IsFeedOver};
ghost use Rattle.pipe_steps.specs.Tables.{joins_of, tables_seen};
ghost use Rattle.cut_flows.specs.Given.{fed_by};
ghost use Rattle.read_laws.specs.Typed.{IsTypedRead};
ghost use Rattle.open_blocks.specs.Files.{faults_of, files_seen};
ghost use Rattle.open_blocks.specs.Taken.{Adds};
ghost use Rattle.pipe_feeds.specs.Kept.{AreTypedAs, AreStreams, IsLeft};
ghost use Rattle.pipe_flows.specs.Bodies.{HaveReadInTurn, reads_made};
ghost use Rattle.pipe_flows.specs.Inputs.{ArePartsOf, HaveParts, columns_of, reads_seen, IsOpenFor};
ghost use Rattle.pipe_flows.specs.Receipts.{IsReceiptAt};
ghost use Rattle.pipe_runs.specs.Stands as spec;

use open_blocks::ReadFiles;
use pipe_feeds::{Stores, build, ended_alone, gather, types_gathered};
use pipe_flows::{Crew, Flowed, flow_read, flow_set, flow_stored};
use plan_pipes::{Breaker, Feed, Pipe, Step};
use read_sources::ReadSource;
use rel_specs::JoinSpec;
use run_words::PipeReceipt;
use std::alloc::Global;
use std::marker::{Send, Sync};
use std::sync::Wait;
use std::thread::Threads;
use sub_types::NoMemory;
use world::{FolderError, Gate, Reader};

/// Runs a pipeline behind those that ran: what it gathers stands behind what they did, and so does the table that it builds, if it builds
/// one. Where a read relation feeds it, its receipt is added.
pub fn run_pipe<H: Threads + Wait + Sync, R: Reader + Send, G: Gate>(
    crew: &Crew<'_, H, G>,
    alloc: Global,
    pipe: Pipe,
    reads: &[ReadSource<'_>],
    files: &mut Vec<ReadFiles<R>>,
    stores: &mut Stores,
    receipts: &mut Vec<PipeReceipt>,
) -> Result<(), FolderError>
    requires reads { All IsTypedRead (reads_seen reads.now) }
    requires files { All (IsOpenFor (reads_seen reads.now)) (map (files_seen R.bytes) files.old.items) }
    requires typed { AreTypedAs stores.old.types.items stores.old.streams.items }
    requires over { spec.IsPipeOn (columns_of (reads_seen reads.now)) (spec.types_in stores.old) pipe }
    ensures types { OnOk result (spec.types_in stores.new ≡ after (exact_over (columns_of (reads_seen reads.now))) (spec.types_in stores.old) pipe) }
    ensures typed { OnOk result (AreTypedAs stores.new.types.items stores.new.streams.items) }
    ensures rows { OnOk result (spec.HasRunPipe (map (files_seen R.bytes) files.old.items) (reads_seen reads.now) pipe stores.old stores.new) }
    ensures receipts { OnOk result (Adds (IsReceiptAt crew.now.workers (map (files_seen R.bytes) files.old.items) (reads_seen reads.now)) (fed_by pipe.feed) receipts.old.items receipts.new.items) }
    ensures reads { OnOk result (HaveReadInTurn (reads_seen reads.now) (map (files_seen R.bytes) files.old.items) (fed_by pipe.feed) (reads_made R.reads files.old.items) (reads_made R.reads files.new.items)) }
    ensures seen { map (files_seen R.bytes) files.new.items ≡ map (files_seen R.bytes) files.old.items }
    ensures cause { HasCause FolderError.Failed (faults_of R.faults files.old.items) (faults_of R.faults files.new.items) result }
{
    let through = flow_pipe(crew, alloc, &pipe, reads, files, stores, receipts)?;
    let Pipe {
        feed: _,
        steps: _,
        breaker,
    } = pipe;
    close_pipe(alloc, breaker, through, stores)?;
    Ok(())
}

/// What is kept for a pipeline's breaker of what comes through its steps.
fn flow_pipe<H: Threads + Wait + Sync, R: Reader + Send, G: Gate>(
    crew: &Crew<'_, H, G>,
    alloc: Global,
    pipe: &Pipe,
    reads: &[ReadSource<'_>],
    files: &mut Vec<ReadFiles<R>>,
    stores: &mut Stores,
    receipts: &mut Vec<PipeReceipt>,
) -> Result<Flowed, FolderError>
    requires reads { All IsTypedRead (reads_seen reads.now) }
    requires files { All (IsOpenFor (reads_seen reads.now)) (map (files_seen R.bytes) files.old.items) }
    requires typed { AreTypedAs stores.old.types.items stores.old.streams.items }
    requires over { spec.IsPipeOn (columns_of (reads_seen reads.now)) (spec.types_in stores.old) pipe.now }
    ensures stored { IfOk result (λ given. given.types.items ≡ flow (exact_over (columns_of (reads_seen reads.now))) (spec.types_in stores.old) pipe.now.feed pipe.now.steps) }
    ensures parts { IfOk result (λ given. HaveParts pipe.now.breaker given.types.items given.parts.items) }
    ensures rows { IfOk result (λ given. spec.FlowsFrom (map (files_seen R.bytes) files.old.items) (reads_seen reads.now) pipe.now.feed pipe.now.steps pipe.now.breaker stores.old given.types.items given.parts.items) }
    ensures left { OnOk result (IsLeft stores.old.streams.items stores.new.streams.items) }
    ensures types { OnOk result (stores.new.types.items ≡ stores.old.types.items) }
    ensures tables { OnOk result (stores.new.tables.items ≡ stores.old.tables.items) }
    ensures receipts { OnOk result (Adds (IsReceiptAt crew.now.workers (map (files_seen R.bytes) files.old.items) (reads_seen reads.now)) (fed_by pipe.now.feed) receipts.old.items receipts.new.items) }
    ensures reads { OnOk result (HaveReadInTurn (reads_seen reads.now) (map (files_seen R.bytes) files.old.items) (fed_by pipe.now.feed) (reads_made R.reads files.old.items) (reads_made R.reads files.new.items)) }
    ensures seen { map (files_seen R.bytes) files.new.items ≡ map (files_seen R.bytes) files.old.items }
    ensures cause { HasCause FolderError.Failed (faults_of R.faults files.old.items) (faults_of R.faults files.new.items) result }
{
    let steps = pipe.steps.as_slice();
    let given = flow_feed(
        crew,
        alloc,
        &pipe.feed,
        steps,
        &pipe.breaker,
        reads,
        files,
        stores,
        receipts,
    )?;
    Ok(given)
}

// The same of what feeds a pipeline, its steps and its breaker.
fn flow_feed<H: Threads + Wait + Sync, R: Reader + Send, G: Gate>(
    crew: &Crew<'_, H, G>,
    alloc: Global,
    feed: &Feed,
    steps: &[Step],
    breaker: &Breaker,
    reads: &[ReadSource<'_>],
    files: &mut Vec<ReadFiles<R>>,
    stores: &mut Stores,
    receipts: &mut Vec<PipeReceipt>,
) -> Result<Flowed, FolderError>
    requires reads { All IsTypedRead (reads_seen reads.now) }
    requires files { All (IsOpenFor (reads_seen reads.now)) (map (files_seen R.bytes) files.old.items) }
    requires typed { AreTypedAs stores.old.types.items stores.old.streams.items }
    requires feed { IsFeedOver (columns_of (reads_seen reads.now)) stores.old.types.items feed.now }
    requires steps { AreStepsOver (joins_of stores.old.tables.items) (fed (exact_over (columns_of (reads_seen reads.now))) stores.old.types.items feed.now) steps.now }
    requires breaker { IsBreakerOver (flow (exact_over (columns_of (reads_seen reads.now))) (spec.types_in stores.old) feed.now steps.now) breaker.now }
    ensures stored { IfOk result (λ given. given.types.items ≡ flow (exact_over (columns_of (reads_seen reads.now))) (spec.types_in stores.old) feed.now steps.now) }
    ensures parts { IfOk result (λ given. HaveParts breaker.now given.types.items given.parts.items) }
    ensures rows { IfOk result (λ given. spec.FlowsFrom (map (files_seen R.bytes) files.old.items) (reads_seen reads.now) feed.now steps.now breaker.now stores.old given.types.items given.parts.items) }
    ensures left { OnOk result (IsLeft stores.old.streams.items stores.new.streams.items) }
    ensures types { OnOk result (stores.new.types.items ≡ stores.old.types.items) }
    ensures tables { OnOk result (stores.new.tables.items ≡ stores.old.tables.items) }
    ensures receipts { OnOk result (Adds (IsReceiptAt crew.now.workers (map (files_seen R.bytes) files.old.items) (reads_seen reads.now)) (fed_by feed.now) receipts.old.items receipts.new.items) }
    ensures reads { OnOk result (HaveReadInTurn (reads_seen reads.now) (map (files_seen R.bytes) files.old.items) (fed_by feed.now) (reads_made R.reads files.old.items) (reads_made R.reads files.new.items)) }
    ensures seen { map (files_seen R.bytes) files.new.items ≡ map (files_seen R.bytes) files.old.items }
    ensures cause { HasCause FolderError.Failed (faults_of R.faults files.old.items) (faults_of R.faults files.new.items) result }
{
    match feed {
        Feed::Read { relation } => {
            let of_read = flow_read(
                crew,
                alloc,
                *relation,
                steps,
                breaker,
                reads,
                files,
                &stores.tables,
                receipts,
            )?;
            Ok(of_read)
        }
        Feed::Pipe(at) => {
            let of_pipe = flow_stored(crew, alloc, *at, steps, breaker, stores)?;
            Ok(of_pipe)
        }
        Feed::Set { op, pipes, types } => {
            let of_set = flow_set(
                crew,
                alloc,
                *op,
                pipes.as_slice(),
                types.as_slice(),
                steps,
                breaker,
                stores,
            )?;
            Ok(of_set)
        }
    }
}

/// Adds what a breaker makes of these parts.
fn close_pipe(
    alloc: Global,
    breaker: Breaker,
    given: Flowed,
    stores: &mut Stores,
) -> Result<(), NoMemory>
    requires over { IsBreakerOver given.types.items breaker }
    requires parts { HaveParts breaker given.types.items given.parts.items }
    requires typed { AreTypedAs stores.old.types.items stores.old.streams.items }
    ensures types { OnOk result (stores.new.types.items ≡ stores.old.types.items ++ gathered_types breaker given.types.items ∷ []) }
    ensures joins { OnOk result ((columns : ℕ → List Ty) → joins_of stores.new.tables.items ≡ joins_of stores.old.tables.items ++ built (exact_over columns) breaker given.types.items) }
    ensures typed { OnOk result (AreTypedAs stores.new.types.items stores.new.streams.items) }
    ensures rows { OnOk result ((rows : Stream Row) → ArePartsOf breaker given.types.items rows given.parts.items → (streams : List (Stream Row)) → AreStreams streams stores.old.streams.items
        → AreStreams (streams ++ gathered breaker rows ∷ []) stores.new.streams.items) }
    ensures tables { OnOk result ((rows : Stream Row) → ArePartsOf breaker given.types.items rows given.parts.items
        → (inputs : Tables) → tables_seen stores.new.tables.items ≡ tables_seen stores.old.tables.items ++ built (rows_over inputs) breaker rows) }
{
    match breaker {
        Breaker::Build(join) => {
            build_table(alloc, join, given, stores)?;
            Ok(())
        }
        other => {
            gather_other(alloc, other, given, stores)?;
            Ok(())
        }
    }
}

/// The same of a breaker that builds no table. No other is given, which is answered with `NoMemory`.
fn gather_other(
    alloc: Global,
    breaker: Breaker,
    given: Flowed,
    stores: &mut Stores,
) -> Result<(), NoMemory>
    requires over { IsBreakerOver given.types.items breaker }
    requires parts { HaveParts breaker given.types.items given.parts.items }
    requires typed { AreTypedAs stores.old.types.items stores.old.streams.items }
    ensures types { OnOk result (stores.new.types.items ≡ stores.old.types.items ++ gathered_types breaker given.types.items ∷ []) }
    ensures joins { OnOk result ((columns : ℕ → List Ty) → joins_of stores.new.tables.items ≡ joins_of stores.old.tables.items ++ built (exact_over columns) breaker given.types.items) }
    ensures typed { OnOk result (AreTypedAs stores.new.types.items stores.new.streams.items) }
    ensures rows { OnOk result ((rows : Stream Row) → ArePartsOf breaker given.types.items rows given.parts.items → (streams : List (Stream Row)) → AreStreams streams stores.old.streams.items
        → AreStreams (streams ++ gathered breaker rows ∷ []) stores.new.streams.items) }
    ensures tables { OnOk result ((rows : Stream Row) → ArePartsOf breaker given.types.items rows given.parts.items
        → (inputs : Tables) → tables_seen stores.new.tables.items ≡ tables_seen stores.old.tables.items ++ built (rows_over inputs) breaker rows) }
{
    if is_build(&breaker) {
        return Err(NoMemory);
    }
    gather_rows(alloc, &breaker, given, stores)?;
    Ok(())
}

fn is_build(breaker: &Breaker) -> bool
    ensures { result ≡ spec.builds breaker.now }
{
    match breaker {
        Breaker::Build(_) => true,
        Breaker::Gather
        | Breaker::Fetch { .. }
        | Breaker::Aggregate(_)
        | Breaker::Sort(_)
        | Breaker::GroupSets(_) => false,
    }
}

/// Adds what a breaker gathers.
fn gather_rows(
    alloc: Global,
    breaker: &Breaker,
    given: Flowed,
    stores: &mut Stores,
) -> Result<(), NoMemory>
    requires over { IsBreakerOver given.types.items breaker.now }
    requires parts { HaveParts breaker.now given.types.items given.parts.items }
    requires typed { AreTypedAs stores.old.types.items stores.old.streams.items }
    ensures types { OnOk result (stores.new.types.items ≡ stores.old.types.items ++ gathered_types breaker.now given.types.items ∷ []) }
    ensures typed { OnOk result (AreTypedAs stores.new.types.items stores.new.streams.items) }
    ensures rows { OnOk result ((rows : Stream Row) → ArePartsOf breaker.now given.types.items rows given.parts.items → (streams : List (Stream Row)) → AreStreams streams stores.old.streams.items
        → AreStreams (streams ++ gathered breaker.now rows ∷ []) stores.new.streams.items) }
    ensures tables { OnOk result (stores.new.tables.items ≡ stores.old.tables.items) }
{
    let Flowed { parts, types } = given;
    let stored = types_gathered(alloc, breaker, &types)?;
    let pieces = gather(alloc, breaker, &types, parts)?;
    stores.push(stored, pieces)?;
    Ok(())
}

/// Adds the table of a join's right rows; only their end is gathered.
fn build_table(
    alloc: Global,
    join: JoinSpec,
    given: Flowed,
    stores: &mut Stores,
) -> Result<(), NoMemory>
    requires over { AreAll given.types.items join.right.items }
    requires parts { HaveParts (breakers.Build join) given.types.items given.parts.items }
    requires typed { AreTypedAs stores.old.types.items stores.old.streams.items }
    ensures types { OnOk result (stores.new.types.items ≡ stores.old.types.items ++ given.types.items ∷ []) }
    ensures joins { OnOk result (joins_of stores.new.tables.items ≡ joins_of stores.old.tables.items ++ Some join ∷ []) }
    ensures typed { OnOk result (AreTypedAs stores.new.types.items stores.new.streams.items) }
    ensures rows { OnOk result ((rows : Stream Row) → ArePartsOf (breakers.Build join) given.types.items rows given.parts.items → (streams : List (Stream Row)) → AreStreams streams stores.old.streams.items
        → AreStreams (streams ++ ended rows.end ∷ []) stores.new.streams.items) }
    ensures tables { OnOk result ((rows : Stream Row) → ArePartsOf (breakers.Build join) given.types.items rows given.parts.items
        → tables_seen stores.new.tables.items ≡ tables_seen stores.old.tables.items ++ table_of join rows ∷ []) }
{
    let Flowed { parts, types } = given;
    let built = build(alloc, join, &types, parts)?;
    let end = ended_alone(alloc, &types, built.broken)?;
    stores.push(types, end)?;
    stores.tables.push(built)?;
    Ok(())
}
