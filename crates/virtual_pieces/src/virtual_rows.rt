// The rows that stand in a plan.
ghost use Rattle.std.specs.Prelude.{◌≡◌, ◌+◌, ◌/◌, IfOk, map, length, vec_len};
ghost use Rattle.std.specs.List.{All, AllByRecursion};
ghost use Rattle.sub_types.specs.Kind.{IsKind};
ghost use Rattle.sub_types.specs.Stream.{glue};
ghost use Rattle.sub_types.specs.Value.{Fits};
ghost use Rattle.plan_typed.specs.declared.rel.Source.TheVariants as sources;
ghost use Rattle.well_typed.specs.Columns.{columns_at};
ghost use Rattle.well_typed.specs.WellTyped.{AreBelow, IsSourceOf};
ghost use Rattle.plan_denote.specs.Denote.{maybe_condition};
ghost use Rattle.plan_denote.specs.Eval.{eval};
ghost use Rattle.plan_denote.specs.Read as spec;
ghost use Rattle.row_steps.specs.Seen.{seen};
ghost use Rattle.batch.specs.BatchRows.{stream_of_piece};
ghost use Rattle.virtual_pieces.specs.Pieces.{HoldsRows};

use batch::Piece;
use plan_leaves::Items;
use plan_typed::Expr;
use row_batches::rows_to_batch;
use row_steps::{RowStream, read_rows, virtual_rows};
use std::alloc::Global;
use sub_types::{NoMemory, Ty};

/// The rows of a piece, but for the last.
const PIECE_ROWS: usize = 1_024;

/// The test, the filter and the columns of a read.
#[derive(Clone, Copy)]
pub struct Reading<'a> {
    pub relation: u32,
    pub types: &'a [Ty],
    pub filter: &'a Option<Expr>,
    pub mask: &'a [u32],
}

/// The rows of the relation of a number that stand in the plan, as they are read, in pieces of the types of the columns that are left: one
/// for each 1,024 of them, up to its own first fault.
pub fn read_virtual(
    alloc: Global,
    number: u32,
    rows: &[Items<Expr>],
    reading: Reading<'_>,
    columns: &[Ty],
) -> Result<Vec<Piece>, NoMemory>
    requires kinds { AllByRecursion (λ ty. IsKind ty.kind) reading.types.now }
    requires mask { AreBelow (length reading.types.now) reading.mask.now }
    requires source { IsSourceOf reading.types.now (sources.Rows rows.now) }
    requires columns { columns.now ≡ columns_at reading.types.now reading.mask.now }

    // The pieces one after the other are the rows as they are read, up to the first fault.
    ensures rows { IfOk result (λ pieces. glue (map stream_of_piece pieces.items)
        ≡ spec.read_rows reading.entry.relation reading.entry.types.now (maybe_condition reading.entry.filter.now) reading.entry.mask.now (spec.virtual_rows number (map (map eval) rows.now))) }
    ensures held { IfOk result (λ pieces. All (HoldsRows columns.now) pieces.items) }
    ensures count { IfOk result (λ pieces. vec_len pieces ≡ (length rows.now + 1023) / 1024) }
{
    let mut pieces = Vec::new(alloc);
    for part in 0..(rows.len() + 1023) / PIECE_ROWS {
        let from = part * PIECE_ROWS;
        let to = rows.len().min(from + PIECE_ROWS);
        let piece = read_part(alloc, number, &rows[from..to], reading, columns)?;
        pieces.push(piece)?;
    }
    Ok(pieces)
}

// Some of these rows, in one piece.
fn read_part(
    alloc: Global,
    number: u32,
    rows: &[Items<Expr>],
    reading: Reading<'_>,
    columns: &[Ty],
) -> Result<Piece, NoMemory>
    requires kinds { AllByRecursion (λ ty. IsKind ty.kind) reading.types.now }
    requires mask { AreBelow (length reading.types.now) reading.mask.now }
    requires source { IsSourceOf reading.types.now (sources.Rows rows.now) }
    requires columns { columns.now ≡ columns_at reading.types.now reading.mask.now }
    ensures rows { IfOk result (λ piece. stream_of_piece piece
        ≡ spec.read_rows reading.entry.relation reading.entry.types.now (maybe_condition reading.entry.filter.now) reading.entry.mask.now (spec.virtual_rows number (map (map eval) rows.now))) }
    ensures held { IfOk result (HoldsRows columns.now) }
{
    let given = virtual_rows(alloc, number, rows)?;
    let read = read_rows(
        alloc,
        reading.relation,
        reading.types,
        reading.filter,
        reading.mask,
        given,
    )?;
    let piece = piece_of(alloc, columns, read)?;
    Ok(piece)
}

// Rows that fit these types, and their end, as a piece.
fn piece_of(alloc: Global, types: &[Ty], read: RowStream) -> Result<Piece, NoMemory>
    requires kinds { All (λ ty. IsKind ty.kind) types.now }
    requires fit { All (Fits types.now) read.rows }
    ensures rows { IfOk result (λ piece. stream_of_piece piece ≡ seen read) }
    ensures held { IfOk result (HoldsRows types.now) }
{
    let batch = rows_to_batch(alloc, types, read.rows.as_slice(), 0)?;
    Ok(Piece {
        batch,
        end: read.end,
    })
}
