// The results of calls: their kinds, and whether they may be null.
ghost use Rattle.std.specs.Prelude.{◌≡◌, ◌<◌};
ghost use Rattle.std.specs.List.{list_all, list_any};
ghost use Rattle.func_table.specs.Kinds.{scale_of as its_scale};
ghost use Rattle.func_table.specs.Seen.{seen};
ghost use Rattle.plan_verdict.specs.Calls as spec;
ghost use Rattle.plan_verdict.specs.Checking.{Agrees};

use crate::refusal::refuse;
use crate::types::type_in;
use func_table::{ResultRule, Row, is_equal};
use plan_leaves::RawType;
use plan_typed::Func;
use plan_verdict::{CheckError, Rule};
use sub_types::{Kind, Ty};

/// The kind of the result: the row's, which a declared type must agree with, or the declared decimal.
pub(crate) fn result_in(
    relation: u32,
    row: &Row,
    given: &[Kind],
    output: &Option<RawType>,
) -> Result<Kind, CheckError>
    ensures { Agrees result relation (spec.result_in (seen row.now) given.now output.now) }
{
    let Some(raw) = output else {
        return match result_of(row.result, given) {
            Some(kind) => Ok(kind),
            None => refuse(relation, Rule::MissingField),
        };
    };
    let ty = type_in(relation, raw)?;
    if !is_result(row, given, ty.kind) {
        return refuse(relation, Rule::BadArguments);
    }
    Ok(ty.kind)
}

/// Whether a declared kind is the row's result.
fn is_result(row: &Row, given: &[Kind], declared: Kind) -> bool
    ensures { result ≡ spec.is_result (seen row.now) given.now declared }
{
    match result_of(row.result, given) {
        Some(kind) => is_equal(kind, declared),
        None => is_of_scale(scale_for(row.func, given), declared),
    }
}

/// The kind of the result where the row alone gives it.
fn result_of(rule: ResultRule, given: &[Kind]) -> Option<Kind>
    ensures { result ≡ spec.result_of rule given.now }
{
    match rule {
        ResultRule::Same => Some(first_kind(given)),
        ResultRule::Bool => Some(Kind::Bool),
        ResultRule::I64 => Some(Kind::I64),
        ResultRule::DeclaredDecimal => None,
    }
}

fn first_kind(given: &[Kind]) -> Kind
    ensures { result ≡ spec.first_kind given.now }
{
    match given {
        [first, ..] => *first,
        [] => Kind::Bool,
    }
}

/// The scale that a declared decimal must have.
fn scale_for(func: Func, given: &[Kind]) -> u16
    ensures { result ≡ spec.scale_for func given.now }
{
    match given {
        [] => 0,
        [only] => scale_of(*only),
        [first, second, ..] => match func {
            Func::Multiply => scale_of(*first) + scale_of(*second),
            _ => scale_of(*first).max(scale_of(*second)),
        },
    }
}

fn scale_of(kind: Kind) -> u16
    ensures value { result ≡ its_scale kind }
    ensures byte { result < 256 }
{
    match kind {
        Kind::Decimal { scale, .. } => u16::from(scale),
        _ => 0,
    }
}

fn is_of_scale(scale: u16, kind: Kind) -> bool
    ensures { result ≡ spec.is_of_scale scale kind }
{
    match kind {
        Kind::Decimal { scale: its, .. } => u16::from(its) == scale,
        _ => false,
    }
}

/// Whether a call may give null where its arguments are of these types.
pub(crate) fn is_nullable_call(func: Func, types: &[Ty]) -> bool
    ensures { result ≡ spec.is_nullable_call func types.now }
{
    match func {
        Func::IsNull | Func::IsNotNull | Func::IsNotDistinctFrom | Func::Count => false,
        Func::Coalesce => are_all_nullable(types),
        Func::Nullif | Func::Sum | Func::Avg | Func::Min | Func::Max => true,
        _ => is_any_nullable(types),
    }
}

fn are_all_nullable(types: &[Ty]) -> bool
    ensures { result ≡ list_all (λ ty. ty.nullable) types.now }
{
    types.iter().all(|ty| ty.nullable)
}

fn is_any_nullable(types: &[Ty]) -> bool
    ensures { result ≡ list_any (λ ty. ty.nullable) types.now }
{
    types.iter().any(|ty| ty.nullable)
}
