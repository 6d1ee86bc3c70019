// The blocks of a read relation's files, through steps.
ghost use Rattle.std.specs.Prelude.{◌≡◌, ◌==◌, IfOk, OnOk, Some, length, map, position, sum_by, true, vec_len};
ghost use Rattle.std.specs.List.{All};
ghost use Rattle.sub_types.specs.Stream.{Stream};
ghost use Rattle.world.specs.Counts.{HasCause};
ghost use Rattle.run_core.specs.Receipts.{lists_of, IsBalanced};
ghost use Rattle.plan_denote.specs.Rows.{Row};
ghost use Rattle.block_source.specs.Bodies.{AreReadOnce};
ghost use Rattle.block_source.specs.Seen.{AreHeads};
ghost use Rattle.table_rows.specs.Blocks.{HaveKinds};
ghost use Rattle.table_round.specs.Below.{StartsWithRead};
ghost use Rattle.open_blocks.specs.Files.{AreOpenFor, faults_of, files_at, files_seen};
ghost use Rattle.read_rounds.specs.Bodies.{HaveRead, reads_made};
ghost use Rattle.read_rounds.specs.Given.{ArePartsThrough};
ghost use Rattle.read_rounds.specs.Told.{TellsRows, blocks_at, blocks_in, parts_seen};

use crate::round::FeedRound;
use crate::workers::Crew;
use block_source::TableBlocks;
use open_blocks::ReadFiles;
use plan_pipes::Step;
use std::alloc::Global;
use std::marker::{Send, Sync};
use std::sync::Wait;
use std::thread::Threads;
use table_round::{PipeRound, PipeSteps, TableSteps, run_table};
use world::{FolderError, Gate, Reader};

/// What is kept of what the steps of a pipeline give over the blocks of the files of the read relation with a number, up to the first
/// fault, read and worked by the workers, whatever their turns are. The files stay in their places. A failed read is an error only where
/// no fault stands before it. Steps that don't begin with a read relation's, and files without the relation's, are answered with
/// `NoMemory`.
pub fn read_named<H: Threads + Wait + Sync, R: Reader + Send, G: Gate>(
    crew: &Crew<'_, H, G>,
    alloc: Global,
    pipe: &PipeSteps,
    relation: u32,
    files: &mut Vec<ReadFiles<R>>,
) -> Result<FeedRound, FolderError>
    requires open { All (λ one. one.relation ≡ relation → AreOpenFor pipe.now.types one) (map (files_seen R.bytes) files.old.items) }

    // Each block was claimed once, and finished by one worker or by the caller.
    ensures workers { IfOk result (λ r. vec_len r.receipts ≡ crew.now.workers) }
    ensures batches { IfOk result (λ r. r.batches ≡ blocks_at (files_at relation (map (files_seen R.bytes) files.old.items))) }
    ensures balanced { IfOk result (λ r. IsBalanced r.batches (map lists_of r.receipts.items) r.left.items) }

    // The parts are those of what the steps give over the rows of the files, where these tell their bytes.
    ensures parts { IfOk result (λ r. (given : Stream Row) × TellsRows (files_at relation (map (files_seen R.bytes) files.old.items)) given
        × ArePartsThrough pipe.now given r.parts.items) }

    // The body of each good block of the files was read once.
    ensures reads { OnOk result (HaveRead relation (map (files_seen R.bytes) files.old.items) (reads_made R.reads files.old.items) (reads_made R.reads files.new.items)) }

    ensures seen { map (files_seen R.bytes) files.new.items ≡ map (files_seen R.bytes) files.old.items }
    ensures cause { HasCause FolderError.Failed (faults_of R.faults files.old.items) (faults_of R.faults files.new.items) result }
{
    if !starts_with_read(pipe.steps) {
        return Err(FolderError::NoMemory);
    }
    let Some(at) = place_of(files.as_slice(), relation) else {
        return Err(FolderError::NoMemory);
    };
    let round = read_at(crew, alloc, pipe, relation, files, at)?;
    Ok(round)
}

// Whether the first step is that of a read relation.
fn starts_with_read(steps: &[Step]) -> bool
    ensures { result ≡ true → StartsWithRead steps.now }
{
    match steps.first() {
        Some(Step::Read { .. }) => true,
        _ => false,
    }
}

// The place of the first files of a relation.
fn place_of<R: Drop>(files: &[ReadFiles<R>], relation: u32) -> Option<usize>
    ensures { result ≡ position (λ one. one.relation == relation) files.now }
{
    files.iter().position(|one| one.relation == relation)
}

// The same of the files at a place, the first of the relation.
fn read_at<H: Threads + Wait + Sync, R: Reader + Send, G: Gate>(
    crew: &Crew<'_, H, G>,
    alloc: Global,
    pipe: &PipeSteps,
    relation: u32,
    files: &mut Vec<ReadFiles<R>>,
    at: usize,
) -> Result<FeedRound, FolderError>
    requires reads { StartsWithRead pipe.now.steps }
    requires at { position (λ one. one.relation == relation) files.old.items ≡ Some at }
    requires open { All (λ one. one.relation ≡ relation → AreOpenFor pipe.now.types one) (map (files_seen R.bytes) files.old.items) }
    ensures workers { IfOk result (λ r. vec_len r.receipts ≡ crew.now.workers) }
    ensures batches { IfOk result (λ r. r.batches ≡ blocks_at (files_at relation (map (files_seen R.bytes) files.old.items))) }
    ensures balanced { IfOk result (λ r. IsBalanced r.batches (map lists_of r.receipts.items) r.left.items) }
    ensures parts { IfOk result (λ r. (given : Stream Row) × TellsRows (files_at relation (map (files_seen R.bytes) files.old.items)) given
        × ArePartsThrough pipe.now given r.parts.items) }
    ensures reads { OnOk result (HaveRead relation (map (files_seen R.bytes) files.old.items) (reads_made R.reads files.old.items) (reads_made R.reads files.new.items)) }
    ensures seen { map (files_seen R.bytes) files.new.items ≡ map (files_seen R.bytes) files.old.items }
    ensures cause { HasCause FolderError.Failed (faults_of R.faults files.old.items) (faults_of R.faults files.new.items) result }
{
    read_one(crew, alloc, pipe, &mut files[at])
}

// The same of one read relation's files.
fn read_one<H: Threads + Wait + Sync, R: Reader + Send, G: Gate>(
    crew: &Crew<'_, H, G>,
    alloc: Global,
    pipe: &PipeSteps,
    one: &mut ReadFiles<R>,
) -> Result<FeedRound, FolderError>
    requires reads { StartsWithRead pipe.now.steps }
    requires open { AreOpenFor pipe.now.types (files_seen R.bytes one.old) }
    ensures workers { IfOk result (λ r. vec_len r.receipts ≡ crew.now.workers) }
    ensures batches { IfOk result (λ r. r.batches ≡ blocks_in (files_seen R.bytes one.old)) }
    ensures balanced { IfOk result (λ r. IsBalanced r.batches (map lists_of r.receipts.items) r.left.items) }
    ensures parts { IfOk result (λ r. (given : Stream Row) × TellsRows (Some (files_seen R.bytes one.old)) given
        × ArePartsThrough pipe.now given r.parts.items) }
    ensures reads { OnOk result (AreReadOnce one.old.blocks.files.items (map R.reads one.old.readers.items) (map R.reads one.new.readers.items)) }
    ensures seen { files_seen R.bytes one.new ≡ files_seen R.bytes one.old }
    ensures cause { HasCause FolderError.Failed (sum_by R.faults one.old.readers.items) (sum_by R.faults one.new.readers.items) result }
{
    read_parts(
        crew,
        alloc,
        pipe,
        one.relation,
        &one.blocks,
        &one.numbers,
        &mut one.readers,
    )
}

// The same of the parts of a read relation's files.
fn read_parts<H: Threads + Wait + Sync, R: Reader + Send, G: Gate>(
    crew: &Crew<'_, H, G>,
    alloc: Global,
    pipe: &PipeSteps,
    relation: u32,
    blocks: &TableBlocks,
    numbers: &[u32],
    readers: &mut Vec<R>,
) -> Result<FeedRound, FolderError>
    requires reads { StartsWithRead pipe.now.steps }
    requires numbers { length numbers.now ≡ vec_len blocks.now.files }
    requires count { vec_len readers.old ≡ vec_len blocks.now.files }
    requires heads { AreHeads blocks.now.files.items (map R.bytes readers.old.items) }
    requires kinds { All (λ one. HaveKinds one.head.schema.columns one.wanted.items pipe.now.types) blocks.now.files.items }
    ensures workers { IfOk result (λ r. vec_len r.receipts ≡ crew.now.workers) }
    ensures batches { IfOk result (λ r. r.batches ≡ vec_len blocks.now.places) }
    ensures balanced { IfOk result (λ r. IsBalanced r.batches (map lists_of r.receipts.items) r.left.items) }
    ensures parts { IfOk result (λ r. (given : Stream Row) × TellsRows (Some (parts_seen relation blocks.now.files.items numbers.now (map R.bytes readers.old.items))) given
        × ArePartsThrough pipe.now given r.parts.items) }
    ensures reads { OnOk result (AreReadOnce blocks.now.files.items (map R.reads readers.old.items) (map R.reads readers.new.items)) }
    ensures bytes { map R.bytes readers.new.items ≡ map R.bytes readers.old.items }
    ensures cause { HasCause FolderError.Failed (sum_by R.faults readers.old.items) (sum_by R.faults readers.new.items) result }
{
    let steps = TableSteps {
        pipe,
        table: blocks,
        numbers,
        relation,
    };
    read_blocks(crew, alloc, &steps, readers)
}

// The same of the blocks of a table.
fn read_blocks<H: Threads + Wait + Sync, R: Reader + Send, G: Gate>(
    crew: &Crew<'_, H, G>,
    alloc: Global,
    steps: &TableSteps,
    readers: &mut Vec<R>,
) -> Result<FeedRound, FolderError>
    requires count { vec_len readers.old ≡ vec_len steps.now.table.now.files }
    requires heads { AreHeads steps.now.table.now.files.items (map R.bytes readers.old.items) }
    requires kinds { All (λ one. HaveKinds one.head.schema.columns one.wanted.items steps.now.pipe.now.types) steps.now.table.now.files.items }
    ensures workers { IfOk result (λ r. vec_len r.receipts ≡ crew.now.workers) }
    ensures batches { IfOk result (λ r. r.batches ≡ vec_len steps.now.table.now.places) }
    ensures balanced { IfOk result (λ r. IsBalanced r.batches (map lists_of r.receipts.items) r.left.items) }
    ensures parts { IfOk result (λ r. (given : Stream Row) × TellsRows (Some (parts_seen steps.now.relation steps.now.table.now.files.items steps.now.numbers.now (map R.bytes readers.old.items))) given
        × ArePartsThrough steps.now.pipe.now given r.parts.items) }
    ensures reads { OnOk result (AreReadOnce steps.now.table.now.files.items (map R.reads readers.old.items) (map R.reads readers.new.items)) }
    ensures bytes { map R.bytes readers.new.items ≡ map R.bytes readers.old.items }
    ensures cause { HasCause FolderError.Failed (sum_by R.faults readers.old.items) (sum_by R.faults readers.new.items) result }
{
    let round = run_table(crew.rt, alloc, steps, readers, crew.workers, crew.gate)?;
    let PipeRound {
        parts,
        receipts,
        left,
    } = round;
    let batches = steps.table.places.len() as u64;
    Ok(FeedRound {
        parts,
        batches,
        receipts,
        left,
    })
}
