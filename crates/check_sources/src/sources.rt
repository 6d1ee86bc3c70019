// What reads read (Substrait `ReadRel`).
ghost use Rattle.std.specs.Prelude.{List};
ghost use Rattle.plan_verdict.specs.Checking.{Comes};
ghost use Rattle.plan_verdict.specs.Reads.{source_in};
ghost use Rattle.plan_verdict.specs.Verdict.{checked_source, checked_table};
ghost use Rattle.plan_raw.specs.declared.source.RawSource.{RawSource-F};
ghost use Rattle.sub_types.specs.declared.kind.Ty.{Ty as Kinded};

use crate::rows::rows;
use check_exprs::{Deeper, Terms, refuse};
use plan_leaves::{Items, LocalFiles, NamedTable};
use plan_raw::{RawSource, VirtualTable};
use plan_rules::{paths_in, table_name_in};
use plan_typed::Source;
use plan_verdict::{CheckError, Progress, Rule};
use std::alloc::Global;
use sub_types::Ty;

/// What is read: the rows of a virtual table, the paths of local files, or a named table.
pub fn source<D: Deeper>(
    deeper: &D,
    terms: &Terms<'_>,
    progress: Progress,
    number: u32,
    types: &[Ty],
    written: &RawSource,
) -> Result<(Source, Progress), CheckError>
    requires { D.is_ready deeper.now }
    ensures { Comes result (checked_source terms.now written.now number types.now progress) }
{
    match written {
        RawSource::Missing => refuse(number, Rule::MissingField),
        RawSource::VirtualTable(table) => {
            rows_source(deeper, terms, progress, number, types, table)
        }
        RawSource::LocalFiles(files) => paths_source(terms.alloc(), progress, number, files),
        RawSource::NamedTable(table) => table_source(terms.alloc(), progress, number, table),
    }
}

/// The rows of a virtual table.
fn rows_source<D: Deeper>(
    deeper: &D,
    terms: &Terms<'_>,
    progress: Progress,
    number: u32,
    types: &[Ty],
    table: &VirtualTable,
) -> Result<(Source, Progress), CheckError>
    requires { D.is_ready deeper.now }
    ensures { Comes result (source_in (RawSource-F.VirtualTable (checked_table terms.now table.now)) number types.now progress) }
{
    let (rows, progress) = rows(deeper, terms, progress, number, types, table)?;
    Ok((Source::Rows(rows), progress))
}

/// The tables by their paths.
fn paths_source(
    alloc: Global,
    progress: Progress,
    number: u32,
    files: &LocalFiles,
) -> Result<(Source, Progress), CheckError>
    ensures { (types : List Kinded) → Comes result (source_in (RawSource-F.LocalFiles files.now) number types progress) }
{
    let names = paths_in(alloc, number, files)?;
    Ok((Source::Named(names), progress))
}

/// The one table of this name.
fn table_source(
    alloc: Global,
    progress: Progress,
    number: u32,
    table: &NamedTable,
) -> Result<(Source, Progress), CheckError>
    ensures { (types : List Kinded) → Comes result (source_in (RawSource-F.NamedTable table.now) number types progress) }
{
    let mut names = Items::new(alloc);
    names.push(table_name_in(alloc, number, table)?)?;
    Ok((Source::Named(names), progress))
}
