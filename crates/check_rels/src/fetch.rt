// Fetches (Substrait `FetchRel`).
ghost use Rattle.std.specs.Prelude.{◌≡◌, Some};
ghost use Rattle.std.specs.Option.{option_map};
ghost use Rattle.check_rels.specs.Inputs as inputs;
ghost use Rattle.plan_verdict.specs.Amounts as amounts;
ghost use Rattle.plan_verdict.specs.Checking.{Agrees, Comes};
ghost use Rattle.plan_verdict.specs.Rels as spec;
ghost use Rattle.plan_verdict.specs.Verdict.{checked_count, checked_expr, checked_offset, checked_rel};

use crate::made::fetch_of;
use check_exprs::{Deeper, Terms, input, part, refuse};
use plan_leaves::{Boxed, RelCommon};
use plan_raw::{RawCount, RawExpr, RawOffset, RawRel};
use plan_rules::{amount_of, beside, rows_skipped, rows_taken};
use plan_typed::Rel;
use plan_verdict::{CheckError, Progress, Rule};

/// The input, and how many rows are skipped and taken.
pub(crate) fn fetch<D: Deeper>(
    deeper: &D,
    terms: &Terms<'_>,
    progress: Progress,
    number: u32,
    common: &Option<RelCommon>,
    written: &Option<Boxed<RawRel>>,
    offset: &RawOffset,
    count: &RawCount,
) -> Result<(Rel, Progress), CheckError>
    requires { D.is_ready deeper.now }
    ensures { Comes result (spec.fetch number common.now (option_map (checked_rel terms.now) written.now) (checked_offset terms.now offset.now) (checked_count terms.now count.now) progress) }
{
    let (rel, progress) = input(deeper, terms, progress, number, written)?;
    fetch_over(terms, progress, number, common, rel, offset, count)
}

/// How many rows of this input are skipped and taken.
fn fetch_over(
    terms: &Terms<'_>,
    progress: Progress,
    number: u32,
    common: &Option<RelCommon>,
    rel: Rel,
    offset: &RawOffset,
    count: &RawCount,
) -> Result<(Rel, Progress), CheckError>
    ensures { Comes result (inputs.fetch_over number common.now rel (checked_offset terms.now offset.now) (checked_count terms.now count.now) progress) }
{
    let amounts = amounts_in(number, offset_in(terms, offset), count_in(terms, count));
    let (rel, (offset, count)) = beside(rel, amounts)?;
    part(
        fetch_of(terms.alloc(), number, common, rel, offset, count),
        progress,
    )
}

/// The rows that are skipped and taken.
fn amounts_in(
    number: u32,
    offset: Option<Option<i64>>,
    count: Option<Option<i64>>,
) -> Result<(u64, Option<u64>), CheckError>
    ensures { Agrees result number (amounts.amounts_in offset count) }
{
    let Some(first) = offset else {
        return refuse(number, Rule::UnsupportedForm);
    };
    let Some(most) = count else {
        return refuse(number, Rule::UnsupportedForm);
    };
    let Some(skipped) = rows_skipped(first) else {
        return refuse(number, Rule::BadArguments);
    };
    let Some(taken) = rows_taken(most) else {
        return refuse(number, Rule::BadArguments);
    };
    Ok((skipped, taken))
}

/// The offset as a number, if it is supported.
fn offset_in(terms: &Terms<'_>, offset: &RawOffset) -> Option<Option<i64>>
    ensures { result ≡ checked_offset terms.now offset.now }
{
    match offset {
        RawOffset::Missing => Some(None),
        RawOffset::Offset(rows) => some_number(rows),
        RawOffset::OffsetExpr(expr) => amount_in(terms, expr.get()),
    }
}

/// The count as a number, if it is supported.
fn count_in(terms: &Terms<'_>, count: &RawCount) -> Option<Option<i64>>
    ensures { result ≡ checked_count terms.now count.now }
{
    match count {
        RawCount::Missing => Some(None),
        RawCount::Count(rows) => some_number(rows),
        RawCount::CountExpr(expr) => amount_in(terms, expr.get()),
    }
}

/// A number that is supported.
fn some_number(rows: &i64) -> Option<Option<i64>>
    ensures { result ≡ Some (Some rows.now) }
{
    Some(Some(*rows))
}

/// The number that an expression is, if it is a literal that is supported.
fn amount_in(terms: &Terms<'_>, expr: &RawExpr) -> Option<Option<i64>>
    ensures { result ≡ amounts.amount_of (checked_expr terms.now expr.now).literal }
{
    match expr {
        RawExpr::Literal(raw) => amount_of(raw),
        _ => None,
    }
}
