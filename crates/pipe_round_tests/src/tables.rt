// Tables of right rows.
ghost use Rattle.std.specs.Prelude.{◌≡◌, ◌∷◌, [], IfOk};
ghost use Rattle.std.specs.List.{All};
ghost use Rattle.batch.specs.BatchRows.{types_of};
ghost use Rattle.well_typed.specs.WellTyped.{IsConditionOver};
ghost use Rattle.hash_join.specs.Built.{IsJoinable};
ghost use Rattle.pipe_steps.specs.Ready.{IsFit};
ghost use Rattle.pipe_round_tests.specs.Steps.{IsJoinOf, sides};

use crate::batches::{NUMBER, random_piece};
use crate::joins::random_spec;
use crate::random::Random;
use crate::steps::read_all;
use batch::{Batch, Piece};
use hash_join::{BuildPart, JoinTable};
use pipe_steps::{BuiltTable, run_steps};
use rel_specs::JoinSpec;
use std::alloc::Global;
use sub_types::{Fault, NoMemory};

/// So many tables of two columns of numbers, for joins of such left rows.
pub(crate) fn random_tables(
    alloc: Global,
    random: &mut Random,
    count: u64,
) -> Result<Vec<BuiltTable>, NoMemory>
    ensures { IfOk result (λ tables. All IsJoinOf tables.items) }
{
    let mut tables = Vec::new(alloc);
    for _ in 0..count {
        let table = random_table(alloc, random)?;
        tables.push(table)?;
    }
    Ok(tables)
}

fn random_table(alloc: Global, random: &mut Random) -> Result<BuiltTable, NoMemory>
    ensures { IfOk result IsJoinOf }
{
    let spec = random_spec(alloc, random)?;
    let piece = random_piece(alloc, random)?;
    let rights = read_piece(alloc, piece)?;
    let table = table_over(alloc, spec, rights)?;
    Ok(table)
}

// The pieces that a read relation gives for one.
fn read_piece(alloc: Global, piece: Piece) -> Result<Vec<Piece>, NoMemory>
    requires { types_of piece.batch ≡ NUMBER ∷ NUMBER ∷ [] }
    ensures typed { IfOk result (λ pieces. All (λ one. types_of one.batch ≡ NUMBER ∷ NUMBER ∷ []) pieces.items) }
    ensures fit { IfOk result (λ pieces. All (λ one. IsFit one.batch) pieces.items) }
{
    let steps = [read_all(alloc)?];
    let types = [NUMBER, NUMBER];
    let mut input = Vec::new(alloc);
    input.push(piece)?;
    let pieces = run_steps(alloc, &steps, &[], &types, input)?;
    Ok(pieces)
}

// The table of the first piece's rows, or of none where it ends in a fault.
fn table_over(alloc: Global, spec: JoinSpec, rights: Vec<Piece>) -> Result<BuiltTable, NoMemory>
    requires joinable { IsJoinable spec }
    requires left { spec.left.items ≡ NUMBER ∷ NUMBER ∷ [] }
    requires right { spec.right.items ≡ NUMBER ∷ NUMBER ∷ [] }
    requires rest { All (IsConditionOver sides) spec.rest.items }
    requires typed { All (λ one. types_of one.batch ≡ NUMBER ∷ NUMBER ∷ []) rights.items }
    requires fit { All (λ one. IsFit one.batch) rights.items }
    ensures { IfOk result IsJoinOf }
{
    let mut rights = rights;
    let Some(piece) = rights.pop() else {
        return Err(NoMemory);
    };
    let Piece { batch, end } = piece;
    match end {
        None => table_of(alloc, spec, batch),
        Some(fault) => broken_table(alloc, spec, fault),
    }
}

fn table_of(alloc: Global, spec: JoinSpec, batch: Batch) -> Result<BuiltTable, NoMemory>
    requires joinable { IsJoinable spec }
    requires left { spec.left.items ≡ NUMBER ∷ NUMBER ∷ [] }
    requires right { spec.right.items ≡ NUMBER ∷ NUMBER ∷ [] }
    requires rest { All (IsConditionOver sides) spec.rest.items }
    requires typed { types_of batch ≡ NUMBER ∷ NUMBER ∷ [] }
    requires fit { IsFit batch }
    ensures { IfOk result IsJoinOf }
{
    let part = BuildPart::of(alloc, &spec, batch)?;
    let mut parts = Vec::new(alloc);
    parts.push(part)?;
    let table = JoinTable::build(alloc, spec, parts)?;
    Ok(BuiltTable {
        table,
        broken: None,
    })
}

fn broken_table(alloc: Global, spec: JoinSpec, fault: Fault) -> Result<BuiltTable, NoMemory>
    requires joinable { IsJoinable spec }
    requires left { spec.left.items ≡ NUMBER ∷ NUMBER ∷ [] }
    requires right { spec.right.items ≡ NUMBER ∷ NUMBER ∷ [] }
    requires rest { All (IsConditionOver sides) spec.rest.items }
    ensures { IfOk result IsJoinOf }
{
    let parts = Vec::new(alloc);
    let table = JoinTable::build(alloc, spec, parts)?;
    Ok(BuiltTable {
        table,
        broken: Some(fault),
    })
}
