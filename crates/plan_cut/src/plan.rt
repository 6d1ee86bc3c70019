// A plan as pipelines.
ghost use Rattle.std.specs.Prelude.{◌≡◌, ◌<◌, ℕ, List, IfOk, length};
ghost use Rattle.sub_types.specs.declared.kind.Ty.{Ty};
ghost use Rattle.plan_typed.specs.Types.{columns_of};
ghost use Rattle.plan_typed.specs.declared.rel.Op.TheVariants as ops;
ghost use Rattle.well_typed.specs.WellTyped.{AreTyped};
ghost use Rattle.plan_denote.specs.Denote.{Tables, denote};
ghost use Rattle.plan_pipes.specs.RowMeaning.{rows_over};
ghost use Rattle.plan_pipes.specs.TypeMeaning.{AreTypedPipes, types_over};
ghost use Rattle.cut_flows.specs.Given.{last_stream, fed_in};
ghost use Rattle.cut_laws.specs.Reads.{ReadsGive, ReadsHave, reads_of};
ghost use Rattle.plan_cut.specs.Cut as spec;

use cut_flows::{
    Flow, Pipes, filter_flow, keep_flow, post_flow, project_flow, read_flow, set_flow, sort_flow,
};
use plan_leaves::Items;
use plan_pipes::{Breaker, Pipe, Step};
use plan_typed::{Expr, Op, Rel, SetMeasure, SetOp, SortKey, Typed, TypedMeasure};
use rel_parts::{agg_spec, cross_spec, join_spec, set_spec, set_types};
use rel_specs::JoinSpec;
use std::alloc::Global;
use sub_types::NoMemory;

/// The pipelines of a plan, in the order in which they run. A feed names earlier ones by their index among all, from 0, and a probe
/// names its table by its index among the tables that earlier ones build. The last pipeline gathers what the plan denotes, and each
/// read relation feeds one.
pub fn cut(alloc: Global, typed: &Typed) -> Result<Vec<Pipe>, NoMemory>
    ensures some { IfOk result (λ pipes. 0 < length pipes.items) }
    ensures last { IfOk result (λ pipes. spec.EndsInGather pipes.items) }
    ensures rows { IfOk result (λ pipes. (tables inputs : Tables) → ReadsGive tables inputs typed.now.rel → last_stream (rows_over inputs) pipes.items ≡ denote tables typed.now.rel) }
    ensures reads { IfOk result (λ pipes. fed_in pipes.items ≡ reads_of typed.now.rel) }
    ensures typed { IfOk result (λ pipes. (columns : ℕ → List Ty) → AreTyped typed.now.rel → ReadsHave columns typed.now.rel → AreTypedPipes columns pipes.items) }
    ensures met { IfOk result (λ pipes. AreTyped typed.now.rel → spec.AreMet pipes.items) }
    ensures columns { IfOk result (λ pipes. (columns : ℕ → List Ty) → AreTyped typed.now.rel → ReadsHave columns typed.now.rel → last_stream (types_over columns) pipes.items (columns_of typed.now.rel)) }
{
    let mut pipes = Pipes::new(alloc);
    let flow = cut_rel(alloc, &mut pipes, &typed.rel)?;
    pipes.close(flow, Breaker::Gather)?;
    Ok(pipes.into_vec())
}

/// Adds the pipelines below a relation, and gives the flow of its rows.
#[cycle(cut)]
fn cut_rel(alloc: Global, pipes: &mut Pipes, rel: &Rel) -> Result<Flow, NoMemory>
    ensures { IfOk result (λ flow. spec.IsCut rel.now pipes.old pipes.new flow) }
{
    let direct = cut_op(alloc, pipes, rel.number, &rel.op)?;
    let flow = keep_flow(alloc, direct, &rel.emit)?;
    Ok(flow)
}

/// The same of what a relation of this number does, before some of its columns are emitted.
#[cycle(cut)]
fn cut_op(alloc: Global, pipes: &mut Pipes, number: u32, op: &Op) -> Result<Flow, NoMemory>
    ensures { IfOk result (λ flow. spec.IsOpCut number op.now pipes.old pipes.new flow) }
{
    match op {
        Op::Read {
            names,
            types,
            filter,
            mask,
            ..
        } => {
            let flow = read_flow(alloc, number, names, types, filter, mask)?;
            Ok(flow)
        }
        Op::Filter { input, condition } => {
            let flow = cut_filter(alloc, pipes, number, input.get(), condition)?;
            Ok(flow)
        }
        Op::Project { input, exprs } => {
            let flow = cut_project(alloc, pipes, number, input.get(), exprs)?;
            Ok(flow)
        }
        Op::Fetch {
            input,
            offset,
            count,
        } => {
            let flow = cut_fetch(alloc, pipes, number, input.get(), *offset, *count)?;
            Ok(flow)
        }
        Op::Sort { input, keys } => {
            let flow = cut_sort(alloc, pipes, number, input.get(), keys)?;
            Ok(flow)
        }
        Op::Aggregate {
            input,
            groups,
            measures,
        } => {
            let flow = cut_aggregate(alloc, pipes, number, input.get(), groups, measures)?;
            Ok(flow)
        }
        Op::GroupSets {
            input,
            groups,
            sets,
            measures,
        } => {
            let flow = cut_groupings(alloc, pipes, number, input.get(), groups, sets, measures)?;
            Ok(flow)
        }
        Op::Join {
            left,
            right,
            kind,
            on,
            post,
        } => {
            let (left, right) = (left.get(), right.get());
            let spec = join_spec(alloc, number, *kind, &left.columns, &right.columns, on)?;
            let built = cut_built(alloc, pipes, right, spec)?;
            let joined = cut_probed(alloc, pipes, left, built)?;
            let flow = post_flow(alloc, joined, number, post)?;
            Ok(flow)
        }
        Op::Cross { left, right } => {
            let (left, right) = (left.get(), right.get());
            let spec = cross_spec(alloc, number, &left.columns, &right.columns)?;
            let built = cut_built(alloc, pipes, right, spec)?;
            let flow = cut_probed(alloc, pipes, left, built)?;
            Ok(flow)
        }
        Op::Set { inputs, op } => {
            let flow = cut_set(alloc, pipes, number, inputs.as_slice(), *op)?;
            Ok(flow)
        }
    }
}

#[cycle(cut)]
fn cut_filter(
    alloc: Global,
    pipes: &mut Pipes,
    number: u32,
    input: &Rel,
    condition: &Expr,
) -> Result<Flow, NoMemory>
    ensures { IfOk result (λ flow. spec.IsOpCut number (ops.Filter input.now condition.now) pipes.old pipes.new flow) }
{
    let flow = cut_rel(alloc, pipes, input)?;
    let longer = filter_flow(alloc, flow, number, condition)?;
    Ok(longer)
}

#[cycle(cut)]
fn cut_project(
    alloc: Global,
    pipes: &mut Pipes,
    number: u32,
    input: &Rel,
    exprs: &Items<Expr>,
) -> Result<Flow, NoMemory>
    ensures { IfOk result (λ flow. spec.IsOpCut number (ops.Project input.now exprs.now) pipes.old pipes.new flow) }
{
    let flow = cut_rel(alloc, pipes, input)?;
    let longer = project_flow(alloc, flow, number, exprs)?;
    Ok(longer)
}

#[cycle(cut)]
fn cut_fetch(
    alloc: Global,
    pipes: &mut Pipes,
    number: u32,
    input: &Rel,
    offset: u64,
    count: Option<u64>,
) -> Result<Flow, NoMemory>
    ensures { IfOk result (λ flow. spec.IsOpCut number (ops.Fetch input.now offset count) pipes.old pipes.new flow) }
{
    let flow = cut_rel(alloc, pipes, input)?;
    let fetched = pipes.through(alloc, flow, Breaker::Fetch { offset, count })?;
    Ok(fetched)
}

#[cycle(cut)]
fn cut_sort(
    alloc: Global,
    pipes: &mut Pipes,
    number: u32,
    input: &Rel,
    keys: &Items<SortKey>,
) -> Result<Flow, NoMemory>
    ensures { IfOk result (λ flow. spec.IsOpCut number (ops.Sort input.now keys.now) pipes.old pipes.new flow) }
{
    let flow = cut_rel(alloc, pipes, input)?;
    let width = input.emit.len();
    let sorted = sort_flow(alloc, pipes, flow, number, width, keys)?;
    Ok(sorted)
}

#[cycle(cut)]
fn cut_aggregate(
    alloc: Global,
    pipes: &mut Pipes,
    number: u32,
    input: &Rel,
    groups: &Items<Expr>,
    measures: &Items<TypedMeasure>,
) -> Result<Flow, NoMemory>
    ensures { IfOk result (λ flow. spec.IsOpCut number (ops.Aggregate input.now groups.now measures.now) pipes.old pipes.new flow) }
{
    let flow = cut_rel(alloc, pipes, input)?;
    let spec = agg_spec(alloc, number, groups, measures)?;
    let grouped = pipes.through(alloc, flow, Breaker::Aggregate(spec))?;
    Ok(grouped)
}

#[cycle(cut)]
fn cut_groupings(
    alloc: Global,
    pipes: &mut Pipes,
    number: u32,
    input: &Rel,
    groups: &Items<Expr>,
    sets: &Items<Items<u32>>,
    measures: &Items<SetMeasure>,
) -> Result<Flow, NoMemory>
    ensures { IfOk result (λ flow. spec.IsOpCut number (ops.GroupSets input.now groups.now sets.now measures.now) pipes.old pipes.new flow) }
{
    let flow = cut_rel(alloc, pipes, input)?;
    let spec = set_spec(alloc, number, groups, sets, measures)?;
    let grouped = pipes.through(alloc, flow, Breaker::GroupSets(spec))?;
    Ok(grouped)
}

/// Adds the pipelines of a join's right input, of which the last builds the join's table, and gives the table's index.
#[cycle(cut)]
fn cut_built(alloc: Global, pipes: &mut Pipes, right: &Rel, join: JoinSpec) -> Result<u32, NoMemory>
    ensures { IfOk result (λ built. spec.IsBuilt right.now join pipes.old pipes.new built) }
{
    let rights = cut_rel(alloc, pipes, right)?;
    let built = pipes.build(rights, join)?;
    Ok(built)
}

/// Adds the pipelines below a join's left input, and gives the flow of its rows joined with those of a table.
#[cycle(cut)]
fn cut_probed(alloc: Global, pipes: &mut Pipes, left: &Rel, built: u32) -> Result<Flow, NoMemory>
    ensures { IfOk result (λ flow. spec.IsProbed left.now built pipes.old pipes.new flow) }
{
    let lefts = cut_rel(alloc, pipes, left)?;
    let joined = lefts.with(Step::Probe { built })?;
    Ok(joined)
}

#[cycle(cut)]
fn cut_set(
    alloc: Global,
    pipes: &mut Pipes,
    number: u32,
    inputs: &[Rel],
    op: SetOp,
) -> Result<Flow, NoMemory>
    ensures { IfOk result (λ flow. spec.IsOpCut number (ops.Set inputs.now op) pipes.old pipes.new flow) }
{
    let places = cut_inputs(alloc, pipes, inputs)?;
    let types = set_types(alloc, op, inputs)?;
    Ok(set_flow(alloc, op, places, types))
}

/// Adds the pipelines of each input, in order, and gives the indexes of those that gather them.
#[cycle(cut)]
fn cut_inputs(alloc: Global, pipes: &mut Pipes, inputs: &[Rel]) -> Result<Items<u32>, NoMemory>
    ensures { IfOk result (λ places. spec.AreCut inputs.now pipes.old pipes.new places) }
{
    let mut places = Vec::with_capacity(alloc, inputs.len())?;
    for input in inputs {
        let flow = cut_rel(alloc, pipes, input)?;
        let place = pipes.close(flow, Breaker::Gather)?;
        places.push(place)?;
    }
    Ok(Items::from_vec(places))
}
