// One random pipeline after another.
ghost use Rattle.std.specs.Prelude.{◌≡◌, ◌≤◌, ◌∷◌, [], IfOk, All};
ghost use Rattle.batch.specs.BatchRows.{types_of};
ghost use Rattle.pipe_types.specs.Over.{IsBreakerOver};
ghost use Rattle.pipe_steps.specs.Tables.{joins_of};
ghost use Rattle.pipe_round_tests.specs.Steps.{AreSteps};

use crate::batches::{NUMBER, copied, piece_of, random_piece};
use crate::breakers::random_breaker;
use crate::random::Random;
use crate::rows::Rows;
use crate::steps::{random_steps, read_alone};
use crate::tables::random_tables;
use batch::Piece;
use pipe_ends::gather;
use pipe_round::run_pieces;
use pipe_steps::{BuiltTable, run_steps};
use pipe_work::{PipeSteps, hold_pieces};
use plan_pipes::{Breaker, Step};
use std::alloc::Global;
use std::marker::Sync;
use std::sync::Wait;
use std::thread;
use std::thread::Threads;
use sub_types::NoMemory;
use world::Gate;

/// Gives way to others before each number.
#[derive(Drop)]
struct YieldingGate;

impl Gate for YieldingGate {
    fn before(&self, _worker: u32, _number: u64) {
        thread::yield_now();
    }
}

/// How many of so many random pipelines give by many workers what they give by one call, and a receipt of each worker.
pub(crate) fn agreeing<H: Threads + Wait + Sync>(
    rt: &H,
    alloc: Global,
    pipelines: u32,
) -> Result<u32, NoMemory> {
    let mut random = Random::new(17);
    let mut count: u32 = 0;
    for _ in 0..pipelines {
        if agrees_once(rt, alloc, &mut random)? {
            count = count.saturating_add(1);
        }
    }
    Ok(count)
}

fn agrees_once<H: Threads + Wait + Sync>(
    rt: &H,
    alloc: Global,
    random: &mut Random,
) -> Result<bool, NoMemory> {
    let count = random.below(3);
    let tables = random_tables(alloc, random, count)?;
    let steps = random_steps(alloc, random, &tables)?;
    let pieces = random_pieces(alloc, random)?;
    let breaker = random_breaker(alloc, random)?;
    let workers = workers_of(random);
    let agrees = agrees(rt, alloc, &steps, &tables, &breaker, &pieces, workers)?;
    Ok(agrees)
}

// 1, 2, 3 or 64.
fn workers_of(random: &mut Random) -> u32
    ensures { (1 ≤ result) × (result ≤ 64) }
{
    match random.below(4) {
        0 => 1,
        1 => 2,
        2 => 3,
        _ => 64,
    }
}

// Up to six pieces.
fn random_pieces(alloc: Global, random: &mut Random) -> Result<Vec<Piece>, NoMemory>
    ensures { IfOk result (λ pieces. All (λ piece. types_of piece.batch ≡ NUMBER ∷ NUMBER ∷ []) pieces.items) }
{
    let mut pieces = Vec::new(alloc);
    for _ in 0..random.below(7) {
        let piece = random_piece(alloc, random)?;
        pieces.push(piece)?;
    }
    Ok(pieces)
}

fn all_copied(alloc: Global, pieces: &[Piece]) -> Result<Vec<Piece>, NoMemory>
    requires { All (λ piece. types_of piece.batch ≡ NUMBER ∷ NUMBER ∷ []) pieces.now }
    ensures { IfOk result (λ copies. All (λ piece. types_of piece.batch ≡ NUMBER ∷ NUMBER ∷ []) copies.items) }
{
    let mut copies = Vec::with_capacity(alloc, pieces.len())?;
    for piece in pieces {
        let copy = copied(alloc, piece)?;
        copies.push(copy)?;
    }
    Ok(copies)
}

// Whether so many workers give what one call gives.
fn agrees<H: Threads + Wait + Sync>(
    rt: &H,
    alloc: Global,
    steps: &[Step],
    tables: &[BuiltTable],
    breaker: &Breaker,
    pieces: &[Piece],
    workers: u32,
) -> Result<bool, NoMemory>
    requires steps { AreSteps (joins_of tables.now) steps.now }
    requires breaker { IsBreakerOver (NUMBER ∷ NUMBER ∷ []) breaker.now }
    requires typed { All (λ piece. types_of piece.batch ≡ NUMBER ∷ NUMBER ∷ []) pieces.now }
    requires workers { (1 ≤ workers) × (workers ≤ 64) }
{
    let whole = by_one_call(alloc, steps, tables, pieces)?;
    let expected = by_one_worker(rt, alloc, breaker, whole)?;
    let seen = by_workers(rt, alloc, steps, tables, breaker, pieces, workers)?;
    Ok(are_both(&expected, &seen))
}

fn are_both(expected: &Option<Rows>, seen: &Option<Rows>) -> bool {
    match (expected, seen) {
        (Some(expected), Some(seen)) => seen.is_same(expected),
        _ => false,
    }
}

// What one call of the steps gives, in one piece.
fn by_one_call(
    alloc: Global,
    steps: &[Step],
    tables: &[BuiltTable],
    pieces: &[Piece],
) -> Result<Piece, NoMemory>
    requires steps { AreSteps (joins_of tables.now) steps.now }
    requires typed { All (λ piece. types_of piece.batch ≡ NUMBER ∷ NUMBER ∷ []) pieces.now }
    ensures { IfOk result (λ piece. types_of piece.batch ≡ NUMBER ∷ NUMBER ∷ []) }
{
    let types = [NUMBER, NUMBER];
    let input = all_copied(alloc, pieces)?;
    let out = run_steps(alloc, steps, tables, &types, input)?;
    let rows = Rows::of(alloc, &out)?;
    let whole = piece_of(alloc, &rows)?;
    Ok(whole)
}

// What the breaker gives for one piece.
fn by_one_worker<H: Threads + Wait + Sync>(
    rt: &H,
    alloc: Global,
    breaker: &Breaker,
    piece: Piece,
) -> Result<Option<Rows>, NoMemory>
    requires breaker { IsBreakerOver (NUMBER ∷ NUMBER ∷ []) breaker.now }
    requires typed { types_of piece.batch ≡ NUMBER ∷ NUMBER ∷ [] }
{
    let steps = read_alone(alloc, &[])?;
    let mut pieces = Vec::new(alloc);
    pieces.push(piece)?;
    let rows = by_workers(rt, alloc, &steps, &[], breaker, &pieces, 1)?;
    Ok(rows)
}

// What the breaker gives for what workers make of the pieces, where there is a receipt of each.
fn by_workers<H: Threads + Wait + Sync>(
    rt: &H,
    alloc: Global,
    steps: &[Step],
    tables: &[BuiltTable],
    breaker: &Breaker,
    pieces: &[Piece],
    workers: u32,
) -> Result<Option<Rows>, NoMemory>
    requires steps { AreSteps (joins_of tables.now) steps.now }
    requires breaker { IsBreakerOver (NUMBER ∷ NUMBER ∷ []) breaker.now }
    requires typed { All (λ piece. types_of piece.batch ≡ NUMBER ∷ NUMBER ∷ []) pieces.now }
    requires workers { (1 ≤ workers) × (workers ≤ 64) }
{
    let types = [NUMBER, NUMBER];
    let pipe = PipeSteps::new(steps, tables, &types, breaker);
    let input = all_copied(alloc, pieces)?;
    let held = hold_pieces(alloc, &pipe, input)?;
    if held.len() > 6 {
        return Ok(None);
    }
    let round = run_pieces(rt, alloc, &pipe, &held, workers, &YieldingGate)?;
    if round.receipts.len() != workers as usize {
        return Ok(None);
    }
    let given = gather(alloc, breaker, &types, round.parts)?;
    let rows = Rows::of(alloc, &given)?;
    Ok(Some(rows))
}
