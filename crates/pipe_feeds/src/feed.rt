// Where the rows of a pipeline come from that aren't read from files.
ghost use Rattle.std.specs.Prelude.{◌≡◌, ◌+◌, ◌/◌, List, [], IfOk, OnOk, map, length, slice_index_or, vec_len};
ghost use Rattle.sub_types.specs.Stream.{Stream, rows_alone};
ghost use Rattle.plan_typed.specs.declared.rel.Source.TheVariants as sources;
ghost use Rattle.well_typed.specs.WellTyped.{IsSourceOf};
ghost use Rattle.plan_denote.specs.Eval.{eval};
ghost use Rattle.plan_denote.specs.Read.{virtual_rows};
ghost use Rattle.plan_denote.specs.Rows.{Row};
ghost use Rattle.plan_denote.specs.Sets.{set_rows};
ghost use Rattle.pipe_types.specs.Over.{AreStepsOver, IsSetOver};
ghost use Rattle.pipe_steps.specs.Tables.{joins_of};
ghost use Rattle.set_rels.specs.Inputs.{stream_of};
ghost use Rattle.pipe_ends.specs.Given.{IsInput};
ghost use Rattle.pipe_feeds.specs.Kept.{AreTypedAs, AreStreams, IsLeft};
ghost use Rattle.pipe_feeds.specs.Ready.{HasPassed, IsReadFirst};

use crate::stores::{Stores, take_each, take_stored, types_at, types_copied};
use batch::Piece;
use pipe_ends::sets;
use pipe_steps::{BuiltTable, types_through};
use plan_leaves::Items;
use plan_pipes::Step;
use plan_typed::{Expr, SetOp};
use std::alloc::Global;
use sub_types::{NoMemory, Ty};
use virtual_pieces::{Reading, read_virtual};

/// Pieces and the types that they are stored with.
#[derive(Drop)]
pub struct Through {
    pub pieces: Vec<Piece>,
    pub types: Vec<Ty>,
}

/// What an earlier pipeline gathered, which is taken. No plan's pipelines take it twice, and what was taken can't be given again, which is
/// answered with `NoMemory`.
pub fn feed_stored(alloc: Global, at: u32, stores: &mut Stores) -> Result<Through, NoMemory>
    requires typed { AreTypedAs stores.old.types.items stores.old.streams.items }
    ensures stored { IfOk result (λ fed. fed.types.items ≡ slice_index_or stores.old.types.items at []) }
    ensures input { IfOk result (λ fed. IsInput fed.types.items fed.pieces.items) }
    ensures rows { IfOk result (λ fed. (streams : List (Stream Row)) → AreStreams streams stores.old.streams.items → stream_of fed.pieces.items ≡ slice_index_or streams at (rows_alone [])) }
    ensures left { OnOk result (IsLeft stores.old.streams.items stores.new.streams.items) }
    ensures types { OnOk result (stores.new.types.items ≡ stores.old.types.items) }
    ensures tables { OnOk result (stores.new.tables.items ≡ stores.old.tables.items) }
{
    let types = types_at(alloc, &stores.types, at as usize)?;
    let Some(pieces) = take_stored(&mut stores.streams, at as usize) else {
        return Err(NoMemory);
    };
    Ok(Through {
        pieces: pieces.into_vec(),
        types,
    })
}

/// The rows of a set operation over what earlier pipelines gathered, which is taken.
pub fn feed_set(
    alloc: Global,
    op: SetOp,
    pipes: &[u32],
    types: &[Ty],
    stores: &mut Stores,
) -> Result<Through, NoMemory>
    requires typed { AreTypedAs stores.old.types.items stores.old.streams.items }
    requires over { IsSetOver op types.now (map (λ at. slice_index_or stores.old.types.items at []) pipes.now) }
    ensures stored { IfOk result (λ fed. fed.types.items ≡ types.now) }
    ensures input { IfOk result (λ fed. IsInput types.now fed.pieces.items) }
    ensures rows { IfOk result (λ fed. (streams : List (Stream Row)) → AreStreams streams stores.old.streams.items
        → stream_of fed.pieces.items ≡ set_rows op (map (λ at. slice_index_or streams at (rows_alone [])) pipes.now)) }
    ensures left { OnOk result (IsLeft stores.old.streams.items stores.new.streams.items) }
    ensures types { OnOk result (stores.new.types.items ≡ stores.old.types.items) }
    ensures tables { OnOk result (stores.new.tables.items ≡ stores.old.tables.items) }
{
    let copied = types_copied(alloc, types)?;
    let inputs = take_each(alloc, pipes, &mut stores.streams)?;
    let pieces = sets(alloc, op, types, inputs)?;
    Ok(Through {
        pieces,
        types: copied,
    })
}

/// The rows of a relation that stand in the plan, behind the first step, which reads them. No plan's pipelines begin otherwise, which is
/// answered with `NoMemory`.
pub fn feed_virtual(
    alloc: Global,
    relation: u32,
    rows: &[Items<Expr>],
    given: &[Ty],
    steps: &[Step],
    built: &[BuiltTable],
) -> Result<Through, NoMemory>
    requires over { AreStepsOver (joins_of built.now) given.now steps.now }
    requires source { IsSourceOf given.now (sources.Rows rows.now) }
    ensures passed { IfOk result (HasPassed (joins_of built.now) steps.now given.now (virtual_rows relation (map (map eval) rows.now))) }
    ensures count { IfOk result (λ fed. vec_len fed.pieces ≡ (length rows.now + 1023) / 1024) }
{
    let Some(first) = steps.first() else {
        return Err(NoMemory);
    };
    let Step::Read {
        relation: reader,
        names: _,
        types,
        filter,
        mask,
    } = first
    else {
        return Err(NoMemory);
    };
    let reading = Reading {
        relation: *reader,
        types: types.as_slice(),
        filter,
        mask: mask.as_slice(),
    };
    let fed = feed_first(alloc, relation, rows, reading, given, steps, built)?;
    Ok(fed)
}

// The same where the first step is this read.
fn feed_first(
    alloc: Global,
    relation: u32,
    rows: &[Items<Expr>],
    reading: Reading<'_>,
    given: &[Ty],
    steps: &[Step],
    built: &[BuiltTable],
) -> Result<Through, NoMemory>
    requires first { IsReadFirst (joins_of built.now) given.now reading.types.now reading.relation reading.filter.now reading.mask.now steps.now }
    requires source { IsSourceOf given.now (sources.Rows rows.now) }
    ensures passed { IfOk result (HasPassed (joins_of built.now) steps.now given.now (virtual_rows relation (map (map eval) rows.now))) }
    ensures count { IfOk result (λ fed. vec_len fed.pieces ≡ (length rows.now + 1023) / 1024) }
{
    let columns = types_through(alloc, &steps[..1], built, given)?;
    let pieces = read_virtual(alloc, relation, rows, reading, &columns)?;
    Ok(Through {
        pieces,
        types: columns,
    })
}
