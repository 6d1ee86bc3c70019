// Set operations (Substrait `SetRel`).
ghost use Rattle.std.specs.Prelude.{◌≡◌, map};
ghost use Rattle.std.specs.List.{list_all};
ghost use Rattle.std.specs.Option.{option_map};
ghost use Rattle.plan_verdict.specs.Checking.{Agrees, Comes};
ghost use Rattle.plan_verdict.specs.Rels as spec;
ghost use Rattle.plan_verdict.specs.Sets as sets;
ghost use Rattle.check_rels.specs.SetParts as parts;
ghost use Rattle.plan_verdict.specs.Verdict.{checked_rel};

use crate::rel::inputs;
use check_exprs::{Deeper, Terms, columns_of_each, part, refuse};
use plan_leaves::{Items, RelCommon};
use plan_raw::RawRel;
use plan_rules::{are_of_kinds, beside, finished_in, set_columns, set_op};
use plan_typed::{Op, Rel, SetOp};
use plan_verdict::{CheckError, Progress, Rule};
use std::alloc::Global;
use sub_types::Ty;

/// Two inputs or more, with columns of the same kinds.
pub(crate) fn set<D: Deeper>(
    deeper: &D,
    terms: &Terms<'_>,
    progress: Progress,
    number: u32,
    common: &Option<RelCommon>,
    written: &[RawRel],
    code: u32,
) -> Result<(Rel, Progress), CheckError>
    requires { D.is_ready deeper.now }
    ensures { Comes result (spec.set number common.now (map (checked_rel terms.now) written.now) code progress) }
{
    let (rels, progress) = inputs(deeper, terms, progress, written)?;
    part(set_of(terms.alloc(), number, common, rels, code), progress)
}

fn set_of(
    alloc: Global,
    number: u32,
    common: &Option<RelCommon>,
    rels: Items<Rel>,
    code: u32,
) -> Result<Rel, CheckError>
    ensures { Agrees result number (sets.set_in number common.now rels code) }
{
    let found = op_and_columns(alloc, number, rels.as_slice(), code);
    let (inputs, (op, direct)) = beside(rels, found)?;
    let op = Op::Set { inputs, op };
    finished_in(alloc, number, common, op, direct.as_slice())
}

/// The operation of this number, and its columns over these inputs.
fn op_and_columns(
    alloc: Global,
    number: u32,
    rels: &[Rel],
    code: u32,
) -> Result<(SetOp, Items<Ty>), CheckError>
    ensures { Agrees result number (parts.op_and_columns rels.now code) }
{
    let columns = columns_of_each(alloc, rels)?;
    let Some((first, others)) = first_and_others(columns.as_slice()) else {
        return refuse(number, Rule::UnsupportedForm);
    };
    let Some(op) = set_op(code) else {
        return refuse(number, Rule::UnsupportedForm);
    };
    Ok((op, columns_in(alloc, number, op, first, others)?))
}

/// The columns of a set operation of inputs of these columns, which are of the same kinds.
fn columns_in(
    alloc: Global,
    number: u32,
    op: SetOp,
    first: &[Ty],
    others: &[Items<Ty>],
) -> Result<Items<Ty>, CheckError>
    ensures { Agrees result number (sets.set_columns_in op first.now others.now) }
{
    if !are_all_of_kinds(first, others) {
        return refuse(number, Rule::TypeMismatch);
    }
    Ok(set_columns(alloc, op, first, others)?)
}

fn are_all_of_kinds(first: &[Ty], others: &[Items<Ty>]) -> bool
    ensures { result ≡ list_all (sets.are_of_kinds first.now) others.now }
{
    others
        .iter()
        .all(|other| are_of_kinds(first, other.as_slice()))
}

/// The first input's columns and those of the others, where there are two or more.
fn first_and_others(columns: &[Items<Ty>]) -> Option<(&[Ty], &[Items<Ty>])>
    ensures { option_map (λ found. (found.0.now, found.1.now)) result ≡ sets.first_and_others columns.entry.now }
{
    let (first, others) = columns.split_first()?;
    if others.is_empty() {
        return None;
    }
    Some((first.as_slice(), others))
}
