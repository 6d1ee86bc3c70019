// What comes through steps behind a read relation, with its receipt.
ghost use Rattle.std.specs.Prelude.{◌≡◌, ◌∷◌, [], IfOk, OnOk, map, vec_len};
ghost use Rattle.std.specs.List.{All};
ghost use Rattle.sub_types.specs.Stream.{Stream};
ghost use Rattle.world.specs.Counts.{HasCause};
ghost use Rattle.plan_denote.specs.Rows.{Row};
ghost use Rattle.plan_pipes.specs.Run.{through};
ghost use Rattle.plan_pipes.specs.RowMeaning.{row_steps};
ghost use Rattle.pipe_types.specs.Exact.{exact_steps};
ghost use Rattle.pipe_steps.specs.Tables.{joins_of, tables_seen};
ghost use Rattle.set_rels.specs.Inputs.{stream_of};
ghost use Rattle.read_rounds.specs.Given.{ArePartsOf};
ghost use Rattle.pipe_feeds.specs.Kept.{IsInput};
ghost use Rattle.open_blocks.specs.Files.{AreOpenFor, faults_of, files_at, files_seen};
ghost use Rattle.open_blocks.specs.Taken.{Adds};
ghost use Rattle.read_rounds.specs.Bodies.{HaveRead, reads_made};
ghost use Rattle.read_rounds.specs.Told.{TellsRows, blocks_at};
ghost use Rattle.pipe_flows.specs.Receipts.{IsReceiptOf};

use crate::flowed::Flowed;
use crate::receipts::add_receipt;
use batch::Piece;
use open_blocks::ReadFiles;
use pipe_steps::types_through;
use read_rounds::{Crew, FeedRound, PipeSteps, pass_pieces, read_named};
use run_words::PipeReceipt;
use std::alloc::Global;
use std::marker::{Send, Sync};
use std::sync::Wait;
use std::thread::Threads;
use sub_types::NoMemory;
use world::{FolderError, Gate, Reader};

/// What is kept of what comes through steps behind the pieces of a read relation.
pub(crate) fn pass_counted<H: Threads + Wait + Sync, G: Gate>(
    crew: &Crew<'_, H, G>,
    alloc: Global,
    pipe: &PipeSteps,
    relation: u32,
    pieces: Vec<Piece>,
    receipts: &mut Vec<PipeReceipt>,
) -> Result<Flowed, NoMemory>
    requires input { IsInput pipe.now.types pieces.items }
    ensures stored { IfOk result (λ given. given.types.items ≡ through exact_steps (joins_of pipe.now.tables) pipe.now.steps pipe.now.types) }
    ensures parts { IfOk result (λ given. ArePartsOf pipe.now.breaker given.types.items (through row_steps (tables_seen pipe.now.tables) pipe.now.steps (stream_of pieces.items)) given.parts.items) }
    ensures receipts { OnOk result (Adds (IsReceiptOf crew.now.workers) ((relation, vec_len pieces) ∷ []) receipts.old.items receipts.new.items) }
{
    let stored = types_through(alloc, pipe.steps, pipe.tables, pipe.types)?;
    let round = pass_pieces(crew, alloc, pipe, pieces)?;
    let FeedRound {
        parts,
        batches,
        receipts: workers,
        left,
    } = round;
    add_receipt(receipts, relation, batches, left, workers)?;
    Ok(Flowed {
        parts,
        types: stored,
    })
}

/// What is kept of what comes through steps behind the files of a read relation.
pub(crate) fn read_counted<H: Threads + Wait + Sync, R: Reader + Send, G: Gate>(
    crew: &Crew<'_, H, G>,
    alloc: Global,
    pipe: &PipeSteps,
    relation: u32,
    files: &mut Vec<ReadFiles<R>>,
    receipts: &mut Vec<PipeReceipt>,
) -> Result<Flowed, FolderError>
    requires open { All (λ one. one.relation ≡ relation → AreOpenFor pipe.now.types one) (map (files_seen R.bytes) files.old.items) }
    ensures stored { IfOk result (λ given. given.types.items ≡ through exact_steps (joins_of pipe.now.tables) pipe.now.steps pipe.now.types) }
    ensures parts { IfOk result (λ given. (input : Stream Row) × TellsRows (files_at relation (map (files_seen R.bytes) files.old.items)) input
        × ArePartsOf pipe.now.breaker given.types.items (through row_steps (tables_seen pipe.now.tables) pipe.now.steps input) given.parts.items) }
    ensures receipts { OnOk result (Adds (IsReceiptOf crew.now.workers) ((relation, blocks_at (files_at relation (map (files_seen R.bytes) files.old.items))) ∷ []) receipts.old.items receipts.new.items) }
    ensures reads { OnOk result (HaveRead relation (map (files_seen R.bytes) files.old.items) (reads_made R.reads files.old.items) (reads_made R.reads files.new.items)) }
    ensures seen { map (files_seen R.bytes) files.new.items ≡ map (files_seen R.bytes) files.old.items }
    ensures cause { HasCause FolderError.Failed (faults_of R.faults files.old.items) (faults_of R.faults files.new.items) result }
{
    let stored = types_through(alloc, pipe.steps, pipe.tables, pipe.types)?;
    let round = read_named(crew, alloc, pipe, relation, files)?;
    let FeedRound {
        parts,
        batches,
        receipts: workers,
        left,
    } = round;
    add_receipt(receipts, relation, batches, left, workers)?;
    Ok(Flowed {
        parts,
        types: stored,
    })
}
