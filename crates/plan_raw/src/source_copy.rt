// Copies of what the untyped tree's read relations read.
ghost use Rattle.std.specs.Prelude.{◌≡◌, IfOk};

use crate::expr_copy::copy_exprs;
use crate::{ExprRow, RawSource, VirtualTable};
use plan_leaves::{CopyIn, Items, zip};
use std::alloc::Global;
use sub_types::NoMemory;

#[cycle(raw_copy)]
pub(crate) fn copy_source(alloc: Global, source: &RawSource) -> Result<RawSource, NoMemory>
    ensures { IfOk result (λ copy. copy ≡ source.now) }
{
    match source {
        RawSource::Missing => Ok(RawSource::Missing),
        RawSource::VirtualTable(table) => {
            let (values, expressions) = zip(
                table.values.copy_in(alloc),
                copy_rows(alloc, table.expressions.as_slice()),
            )?;
            Ok(RawSource::VirtualTable(VirtualTable {
                values,
                expressions,
            }))
        }
        RawSource::LocalFiles(files) => Ok(RawSource::LocalFiles(files.copy_in(alloc)?)),
        RawSource::NamedTable(table) => Ok(RawSource::NamedTable(table.copy_in(alloc)?)),
    }
}

#[cycle(raw_copy)]
fn copy_rows(alloc: Global, rows: &[ExprRow]) -> Result<Items<ExprRow>, NoMemory>
    ensures { IfOk result (λ copies. copies ≡ rows.now) }
{
    let mut copies = Vec::with_capacity(alloc, rows.len())?;
    for row in rows {
        copies.push(copy_row(alloc, row)?)?;
    }
    Ok(Items::from_vec(copies))
}

#[cycle(raw_copy)]
fn copy_row(alloc: Global, row: &ExprRow) -> Result<ExprRow, NoMemory>
    ensures { IfOk result (λ copy. copy ≡ row.now) }
{
    Ok(ExprRow {
        fields: copy_exprs(alloc, row.fields.as_slice())?,
    })
}
