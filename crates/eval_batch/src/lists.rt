//! Kinds of arguments, and stops.
ghost use Rattle.std.specs.Prelude.{◌≡◌, replicate, slice_index_or, IfOk};
ghost use Rattle.batch_nodes.specs.Strict as strict;
ghost use Rattle.eval_row.specs.Lists.{kinds_of};

use kernels::{Rows, Stop};
use plan_typed::Expr;
use std::alloc::Global;
use sub_types::{Kind, NoMemory};

/// The kinds of expressions.
pub(crate) fn kinds_in(alloc: Global, args: &[Expr]) -> Result<Vec<Kind>, NoMemory>
    ensures { IfOk result (λ kinds. kinds.items ≡ kinds_of args.now) }
{
    let mut kinds = Vec::with_capacity(alloc, args.len())?;
    for arg in args {
        kinds.push(arg.ty().kind)?;
    }
    Ok(kinds)
}

/// So many times a number.
pub(crate) fn repeated(alloc: Global, number: usize, n: usize) -> Result<Vec<usize>, NoMemory>
    ensures { IfOk result (λ numbers. numbers.items ≡ replicate n number) }
{
    Ok(vec![in alloc; number; n]?)
}

/// A stop, and where it is none the other.
pub(crate) fn earlier(stop: Stop, other: Stop) -> Stop
    ensures { result ≡ strict.earlier stop other }
{
    match stop {
        Stop::Never => other,
        Stop::At { row, kind } => Stop::At { row, kind },
    }
}

/// The stop at a place of these rows as a stop at its row, and where it is none the other.
pub(crate) fn stop_of(at: Stop, rows: &Rows<'_>, other: Stop) -> Stop
    ensures { result ≡ strict.earlier (strict.at_row rows.now at) other }
{
    match at {
        Stop::Never => other,
        Stop::At { row, kind } => Stop::At {
            row: row_or_first(rows, row as usize),
            kind,
        },
    }
}

fn row_or_first(rows: &Rows<'_>, place: usize) -> u64
    ensures { result ≡ slice_index_or rows.now place 0 }
{
    if place < rows.len() {
        rows.row_at(place)
    } else {
        0
    }
}
