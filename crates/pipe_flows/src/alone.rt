// What comes through steps behind what earlier pipelines gathered.
ghost use Rattle.std.specs.Prelude.{◌≡◌, [], List, IfOk, OnOk, map, slice_index_or};
ghost use Rattle.sub_types.specs.Stream.{Stream, rows_alone};
ghost use Rattle.plan_denote.specs.Rows.{Row};
ghost use Rattle.plan_denote.specs.Sets.{set_rows};
ghost use Rattle.plan_pipes.specs.Run.{through};
ghost use Rattle.plan_pipes.specs.RowMeaning.{row_steps};
ghost use Rattle.pipe_types.specs.Exact.{exact_steps};
ghost use Rattle.pipe_types.specs.Over.{AreStepsOver, IsBreakerOver, IsSetOver};
ghost use Rattle.pipe_steps.specs.Tables.{joins_of, tables_seen};
ghost use Rattle.set_rels.specs.Inputs.{stream_of};
ghost use Rattle.read_rounds.specs.Given.{ArePartsOf, HaveParts};
ghost use Rattle.pipe_feeds.specs.Kept.{AreTypedAs, AreStreams, IsInput, IsLeft};

use crate::flowed::Flowed;
use batch::Piece;
use pipe_feeds::{Stores, Through, feed_set, feed_stored};
use pipe_steps::{BuiltTable, types_through};
use plan_pipes::{Breaker, Step};
use plan_typed::SetOp;
use read_rounds::{Crew, FeedRound, PipeSteps, pass_pieces};
use std::alloc::Global;
use std::sync::Wait;
use std::thread::Threads;
use sub_types::{NoMemory, Ty};
use world::Gate;

/// What is kept for a breaker of what comes through the steps behind what an earlier pipeline gathered, which is taken.
pub fn flow_stored<H: Threads + Wait + Sync, G: Gate>(
    crew: &Crew<'_, H, G>,
    alloc: Global,
    at: u32,
    steps: &[Step],
    breaker: &Breaker,
    stores: &mut Stores,
) -> Result<Flowed, NoMemory>
    requires typed { AreTypedAs stores.old.types.items stores.old.streams.items }
    requires over { AreStepsOver (joins_of stores.old.tables.items) (slice_index_or stores.old.types.items at []) steps.now }
    requires breaker { IsBreakerOver (through exact_steps (joins_of stores.old.tables.items) steps.now (slice_index_or stores.old.types.items at [])) breaker.now }
    ensures stored { IfOk result (λ given. given.types.items ≡ through exact_steps (joins_of stores.old.tables.items) steps.now (slice_index_or stores.old.types.items at [])) }
    ensures parts { IfOk result (λ given. HaveParts breaker.now given.types.items given.parts.items) }
    ensures rows { IfOk result (λ given. (streams : List (Stream Row)) → AreStreams streams stores.old.streams.items
        → ArePartsOf breaker.now given.types.items (through row_steps (tables_seen stores.old.tables.items) steps.now (slice_index_or streams at (rows_alone []))) given.parts.items) }
    ensures left { OnOk result (IsLeft stores.old.streams.items stores.new.streams.items) }
    ensures types { OnOk result (stores.new.types.items ≡ stores.old.types.items) }
    ensures tables { OnOk result (stores.new.tables.items ≡ stores.old.tables.items) }
{
    let fed = feed_stored(alloc, at, stores)?;
    let given = pass_fed(crew, alloc, steps, breaker, &stores.tables, fed)?;
    Ok(given)
}

/// The same behind a set operation over what earlier pipelines gathered.
pub fn flow_set<H: Threads + Wait + Sync, G: Gate>(
    crew: &Crew<'_, H, G>,
    alloc: Global,
    op: SetOp,
    pipes: &[u32],
    types: &[Ty],
    steps: &[Step],
    breaker: &Breaker,
    stores: &mut Stores,
) -> Result<Flowed, NoMemory>
    requires typed { AreTypedAs stores.old.types.items stores.old.streams.items }
    requires set { IsSetOver op types.now (map (λ at. slice_index_or stores.old.types.items at []) pipes.now) }
    requires over { AreStepsOver (joins_of stores.old.tables.items) types.now steps.now }
    requires breaker { IsBreakerOver (through exact_steps (joins_of stores.old.tables.items) steps.now types.now) breaker.now }
    ensures stored { IfOk result (λ given. given.types.items ≡ through exact_steps (joins_of stores.old.tables.items) steps.now types.now) }
    ensures parts { IfOk result (λ given. HaveParts breaker.now given.types.items given.parts.items) }
    ensures rows { IfOk result (λ given. (streams : List (Stream Row)) → AreStreams streams stores.old.streams.items
        → ArePartsOf breaker.now given.types.items (through row_steps (tables_seen stores.old.tables.items) steps.now (set_rows op (map (λ at. slice_index_or streams at (rows_alone [])) pipes.now))) given.parts.items) }
    ensures left { OnOk result (IsLeft stores.old.streams.items stores.new.streams.items) }
    ensures types { OnOk result (stores.new.types.items ≡ stores.old.types.items) }
    ensures tables { OnOk result (stores.new.tables.items ≡ stores.old.tables.items) }
{
    let fed = feed_set(alloc, op, pipes, types, stores)?;
    let given = pass_fed(crew, alloc, steps, breaker, &stores.tables, fed)?;
    Ok(given)
}

// The same behind pieces.
fn pass_fed<H: Threads + Wait + Sync, G: Gate>(
    crew: &Crew<'_, H, G>,
    alloc: Global,
    steps: &[Step],
    breaker: &Breaker,
    tables: &[BuiltTable],
    fed: Through,
) -> Result<Flowed, NoMemory>
    requires over { AreStepsOver (joins_of tables.now) fed.types.items steps.now }
    requires breaker { IsBreakerOver (through exact_steps (joins_of tables.now) steps.now fed.types.items) breaker.now }
    requires input { IsInput fed.types.items fed.pieces.items }
    ensures stored { IfOk result (λ given. given.types.items ≡ through exact_steps (joins_of tables.now) steps.now fed.types.items) }
    ensures parts { IfOk result (λ given. ArePartsOf breaker.now given.types.items (through row_steps (tables_seen tables.now) steps.now (stream_of fed.pieces.items)) given.parts.items) }
{
    let Through { pieces, types } = fed;
    let pipe = PipeSteps::new(steps, tables, &types, breaker);
    let given = pass_alone(crew, alloc, &pipe, pieces)?;
    Ok(given)
}

// The same of steps with all that they need.
fn pass_alone<H: Threads + Wait + Sync, G: Gate>(
    crew: &Crew<'_, H, G>,
    alloc: Global,
    pipe: &PipeSteps,
    pieces: Vec<Piece>,
) -> Result<Flowed, NoMemory>
    requires input { IsInput pipe.now.types pieces.items }
    ensures stored { IfOk result (λ given. given.types.items ≡ through exact_steps (joins_of pipe.now.tables) pipe.now.steps pipe.now.types) }
    ensures parts { IfOk result (λ given. ArePartsOf pipe.now.breaker given.types.items (through row_steps (tables_seen pipe.now.tables) pipe.now.steps (stream_of pieces.items)) given.parts.items) }
{
    let stored = types_through(alloc, pipe.steps, pipe.tables, pipe.types)?;
    let round = pass_pieces(crew, alloc, pipe, pieces)?;
    let FeedRound { parts, .. } = round;
    Ok(Flowed {
        parts,
        types: stored,
    })
}
