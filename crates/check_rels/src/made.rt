// Checked relations of their parts: the columns that each has, and what of them it emits.
ghost use Rattle.std.specs.Prelude.{◌≡◌, ◌++◌, IfOk, map};
ghost use Rattle.plan_typed.specs.declared.rel.Op.TheVariants as ops;
ghost use Rattle.plan_typed.specs.Types.{columns_of, ty_of};
ghost use Rattle.plan_verdict.specs.Checking.{Agrees};
ghost use Rattle.plan_verdict.specs.Columns as columns_spec;
ghost use Rattle.plan_verdict.specs.Columns.{finished_in as finished_as};
ghost use Rattle.plan_verdict.specs.Rels as rels;

use check_exprs::{copied, joined, types_of};
use plan_leaves::{Boxed, Items, RelCommon, zip};
use plan_rules::{columns_at, finished_in, join_columns};
use plan_typed::{Expr, JoinKind, Op, Rel, SortKey, Source};
use plan_verdict::CheckError;
use std::alloc::Global;
use sub_types::{ByteList, NoMemory, Ty};

pub(crate) fn read_of(
    alloc: Global,
    number: u32,
    common: &Option<RelCommon>,
    source: Source,
    names: Items<ByteList>,
    types: Items<Ty>,
    filter: Option<Expr>,
    mask: Items<u32>,
) -> Result<Rel, CheckError>
    ensures { Agrees result number (finished_as number common.now (ops.Read source names types filter mask) (columns_spec.columns_at types mask)) }
{
    let columns = columns_at(alloc, types.as_slice(), mask.as_slice());
    let op = Op::Read {
        source,
        names,
        types,
        filter,
        mask,
    };
    let columns = columns?;
    finished_in(alloc, number, common, op, columns.as_slice())
}

pub(crate) fn filter_of(
    alloc: Global,
    number: u32,
    common: &Option<RelCommon>,
    input: Rel,
    condition: Expr,
) -> Result<Rel, CheckError>
    ensures { Agrees result number (finished_as number common.now (ops.Filter input condition) (columns_of input)) }
{
    let (columns, input) = with_columns(alloc, input)?;
    let op = Op::Filter { input, condition };
    finished_in(alloc, number, common, op, columns.as_slice())
}

pub(crate) fn fetch_of(
    alloc: Global,
    number: u32,
    common: &Option<RelCommon>,
    input: Rel,
    offset: u64,
    count: Option<u64>,
) -> Result<Rel, CheckError>
    ensures { Agrees result number (finished_as number common.now (ops.Fetch input offset count) (columns_of input)) }
{
    let (columns, input) = with_columns(alloc, input)?;
    let op = Op::Fetch {
        input,
        offset,
        count,
    };
    finished_in(alloc, number, common, op, columns.as_slice())
}

pub(crate) fn sort_of(
    alloc: Global,
    number: u32,
    common: &Option<RelCommon>,
    input: Rel,
    keys: Items<SortKey>,
) -> Result<Rel, CheckError>
    ensures { Agrees result number (finished_as number common.now (ops.Sort input keys) (columns_of input)) }
{
    let (columns, input) = with_columns(alloc, input)?;
    let op = Op::Sort { input, keys };
    finished_in(alloc, number, common, op, columns.as_slice())
}

/// The columns of an input, and the input.
fn with_columns(alloc: Global, input: Rel) -> Result<(Items<Ty>, Boxed<Rel>), NoMemory>
    ensures columns { IfOk result (λ made. made.0 ≡ columns_of input) }
    ensures input { IfOk result (λ made. made.1 ≡ input) }
{
    let columns = copied(alloc, input.columns.as_slice());
    Ok(zip(columns, Boxed::new(alloc, input))?)
}

pub(crate) fn project_of(
    alloc: Global,
    number: u32,
    common: &Option<RelCommon>,
    input: Rel,
    exprs: Items<Expr>,
) -> Result<Rel, CheckError>
    ensures { Agrees result number (finished_as number common.now (ops.Project input exprs) (columns_of input ++ map ty_of exprs)) }
{
    let columns = with_types(alloc, input.columns.as_slice(), exprs.as_slice());
    let (columns, input) = zip(columns, Boxed::new(alloc, input))?;
    let op = Op::Project { input, exprs };
    finished_in(alloc, number, common, op, columns.as_slice())
}

/// These columns, and then the types of the expressions.
fn with_types(alloc: Global, columns: &[Ty], exprs: &[Expr]) -> Result<Items<Ty>, NoMemory>
    ensures { IfOk result (λ both. both ≡ columns.now ++ map ty_of exprs.now) }
{
    let types = types_of(alloc, exprs)?;
    joined(alloc, columns, types.as_slice())
}

pub(crate) fn join_of(
    alloc: Global,
    number: u32,
    common: &Option<RelCommon>,
    left: Rel,
    right: Rel,
    kind: JoinKind,
    on: Expr,
    post: Option<Expr>,
) -> Result<Rel, CheckError>
    ensures { Agrees result number (finished_as number common.now (ops.Join left right kind on post) (rels.join_columns kind (columns_of left) (columns_of right))) }
{
    let columns = join_columns(
        alloc,
        kind,
        left.columns.as_slice(),
        right.columns.as_slice(),
    );
    let (columns, (left, right)) = zip(columns, boxed(alloc, left, right))?;
    let op = Op::Join {
        left,
        right,
        kind,
        on,
        post,
    };
    finished_in(alloc, number, common, op, columns.as_slice())
}

pub(crate) fn cross_of(
    alloc: Global,
    number: u32,
    common: &Option<RelCommon>,
    left: Rel,
    right: Rel,
) -> Result<Rel, CheckError>
    ensures { Agrees result number (finished_as number common.now (ops.Cross left right) (columns_of left ++ columns_of right)) }
{
    let columns = joined(alloc, left.columns.as_slice(), right.columns.as_slice());
    let (columns, (left, right)) = zip(columns, boxed(alloc, left, right))?;
    let op = Op::Cross { left, right };
    finished_in(alloc, number, common, op, columns.as_slice())
}

/// Two inputs.
fn boxed(alloc: Global, left: Rel, right: Rel) -> Result<(Boxed<Rel>, Boxed<Rel>), NoMemory>
    ensures left { IfOk result (λ both. both.0 ≡ left) }
    ensures right { IfOk result (λ both. both.1 ≡ right) }
{
    Ok(zip(Boxed::new(alloc, left), Boxed::new(alloc, right))?)
}
