// A pipeline without its breaker, and the steps that relations add to it.
ghost use Rattle.std.specs.Prelude.{◌≡◌, [], IfOk};
ghost use Rattle.cut_flows.specs.Flows as spec;

use plan_leaves::{CopyIn, Items, zip};
use plan_pipes::{Feed, Step};
use plan_typed::{Expr, SetOp};
use std::alloc::Global;
use sub_types::{ByteList, NoMemory, Ty};

/// A pipeline that has no breaker yet.
#[derive(Drop)]
pub struct Flow {
    pub feed: Feed,
    pub steps: Items<Step>,
}

impl Flow {
    /// A feed without steps.
    pub fn of(alloc: Global, feed: Feed) -> Flow
        ensures { result ≡ spec.flow_from feed }
    {
        Flow {
            feed,
            steps: Items::new(alloc),
        }
    }

    /// One step more.
    pub fn with(self, step: Step) -> Result<Flow, NoMemory>
        ensures { IfOk result (λ longer. longer ≡ spec.with_step self step) }
    {
        let Flow { feed, mut steps } = self;
        steps.push(step)?;
        Ok(Flow { feed, steps })
    }
}

/// The rows of the read relation of this number.
pub fn read_flow(
    alloc: Global,
    relation: u32,
    names: &Items<ByteList>,
    types: &Items<Ty>,
    filter: &Option<Expr>,
    mask: &Items<u32>,
) -> Result<Flow, NoMemory>
    ensures { IfOk result (λ flow. flow ≡ spec.read_flow relation names.now types.now filter.now mask.now) }
{
    let columns = zip(names.copy_in(alloc), types.copy_in(alloc));
    let tests = zip(filter.copy_in(alloc), mask.copy_in(alloc));
    let ((names, types), (filter, mask)) = zip(columns, tests)?;
    let flow = Flow::of(alloc, Feed::Read { relation });
    let read = flow.with(Step::Read {
        relation,
        names,
        types,
        filter,
        mask,
    })?;
    Ok(read)
}

/// A set operation over what the pipelines at these indexes gather, of which the columns have these types.
pub fn set_flow(alloc: Global, op: SetOp, pipes: Items<u32>, types: Items<Ty>) -> Flow
    ensures { result ≡ spec.set_flow op pipes types }
{
    Flow::of(alloc, Feed::Set { op, pipes, types })
}

/// The rows for which a condition is true.
pub fn filter_flow(
    alloc: Global,
    flow: Flow,
    relation: u32,
    condition: &Expr,
) -> Result<Flow, NoMemory>
    ensures { IfOk result (λ longer. longer ≡ spec.filter_flow flow relation condition.now) }
{
    let condition = condition.copy(alloc)?;
    let longer = flow.with(Step::Filter {
        relation,
        condition,
    })?;
    Ok(longer)
}

/// The same where the condition may be absent.
pub fn post_flow(
    alloc: Global,
    flow: Flow,
    relation: u32,
    post: &Option<Expr>,
) -> Result<Flow, NoMemory>
    ensures { IfOk result (λ longer. longer ≡ spec.post_flow flow relation post.now) }
{
    match post {
        None => Ok(flow),
        Some(condition) => {
            let longer = filter_flow(alloc, flow, relation, condition)?;
            Ok(longer)
        }
    }
}

/// The values of expressions behind each row.
pub fn project_flow(
    alloc: Global,
    flow: Flow,
    relation: u32,
    exprs: &Items<Expr>,
) -> Result<Flow, NoMemory>
    ensures { IfOk result (λ longer. longer ≡ spec.project_flow flow relation exprs.now) }
{
    let exprs = exprs.copy_in(alloc)?;
    let longer = flow.with(Step::Project { relation, exprs })?;
    Ok(longer)
}

/// These columns.
pub fn keep_flow(alloc: Global, flow: Flow, columns: &Items<u32>) -> Result<Flow, NoMemory>
    ensures { IfOk result (λ longer. longer ≡ spec.keep_flow flow columns.now) }
{
    let columns = columns.copy_in(alloc)?;
    let longer = flow.with(Step::Keep(columns))?;
    Ok(longer)
}
