// Plans that are one bare read: the table that they read is their answer, as it is.
ghost use Rattle.std.specs.Prelude.{◌≡◌, ◌↔◌, IfSome, IsSome, IsTrue};
ghost use Rattle.std.specs.List.{All, AllZip};
ghost use Rattle.batch.specs.BatchRows.{types_of};
ghost use Rattle.plan_denote.specs.Subqueries.{denote_plan};
ghost use Rattle.plan_reads.specs.Reads.{reads_of};
ghost use Rattle.plan_tables.specs.Read.{IsTableOf};
ghost use Rattle.plan_typed.specs.Types.{columns_of};
ghost use Rattle.row_engine.specs.Tables.{table_stream, tables_seen};
ghost use Rattle.run_accepted.specs.Bare.{IsBare, IsBareRead, IsNamed, ReadsAll, all_places};

use func_table::is_equal;
use plan_typed::{Expr, Holed, Op, Rel, Source};
use row_engine::Table;
use sub_types::Ty;

/// The table that a plan reads, where it is one bare read: its rows and its end are the plan's, and its batches are of the
/// plan's columns. `None` for any other plan.
pub fn bare_table<'a>(plan: &Holed, tables: &'a [Table]) -> Option<&'a Table>
    requires tables { AllZip IsTableOf (reads_of plan.now) tables.now }
    ensures bare { IsSome result ↔ IsBare plan.now }
    ensures rows { IfSome result (λ table. table_stream table.now ≡ denote_plan (tables_seen tables.now) plan.now) }
    ensures types { IfSome result (λ table. All (λ batch. types_of batch ≡ columns_of plan.now.typed.rel) table.now.batches) }
{
    // It is the plan's one table.
    if is_bare(plan) { tables.first() } else { None }
}

/// Whether a plan is one bare read.
pub(crate) fn is_bare(plan: &Holed) -> bool
    ensures { IsTrue result ↔ IsBare plan.now }
{
    plan.subs.is_empty() && is_bare_read(&plan.typed.rel)
}

/// Whether a relation gives all columns of tables by their names, in order and as they are.
fn is_bare_read(rel: &Rel) -> bool
    ensures { IsTrue result ↔ IsBareRead rel.now }
{
    let columns = rel.columns.as_slice();
    if !are_all_places(rel.emit.as_slice(), columns.len()) {
        return false;
    }
    match &rel.op {
        Op::Read {
            source,
            types,
            filter,
            mask,
            ..
        } => reads_all(columns, source, types.as_slice(), filter, mask.as_slice()),
        _ => false,
    }
}

/// Whether a read gives each row of tables by their names, and all columns in order, which have these types.
fn reads_all(
    columns: &[Ty],
    source: &Source,
    types: &[Ty],
    filter: &Option<Expr>,
    mask: &[u32],
) -> bool
    ensures { IsTrue result ↔ ReadsAll columns.now source.now types.now filter.now mask.now }
{
    is_named(source)
        && filter.is_none()
        && are_same(types, columns)
        && are_all_places(mask, columns.len())
}

fn is_named(source: &Source) -> bool
    ensures { IsTrue result ↔ IsNamed source.now }
{
    matches!(source, Source::Named(_))
}

/// Whether these are the places of so many columns, in order.
fn are_all_places(places: &[u32], count: usize) -> bool
    ensures { IsTrue result ↔ (places.now ≡ all_places count) }
{
    if places.len() != count {
        return false;
    }
    for (i, place) in places.iter().enumerate() {
        if *place as usize != i {
            return false;
        }
    }
    true
}

/// Whether the types are the same, in order.
fn are_same(types: &[Ty], others: &[Ty]) -> bool
    ensures { IsTrue result ↔ (types.now ≡ others.now) }
{
    if types.len() != others.len() {
        return false;
    }
    for (i, ty) in types.iter().enumerate() {
        if !is_same(*ty, others[i]) {
            return false;
        }
    }
    true
}

fn is_same(ty: Ty, other: Ty) -> bool
    ensures { IsTrue result ↔ (ty ≡ other) }
{
    is_equal(ty.kind, other.kind) && ty.nullable == other.nullable
}
