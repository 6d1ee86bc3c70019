// Pipelines as data.
use plan_leaves::Items;
use plan_typed::{Expr, SetOp};
use rel_specs::{AggSpec, JoinSpec, KeyOrder, SetSpec};
use sub_types::{ByteList, Ty};

/// Where a pipeline's rows come from.
#[derive(Drop)]
pub enum Feed {
    /// The rows of a read relation, by its number: of its tables, one after the other, or those that stand in the plan.
    Read {
        relation: u32,
    },
    /// What an earlier pipeline gathered, by its index among all pipelines, from 0.
    Pipe(u32),
    /// A set operation over what earlier pipelines gathered, by their indexes. `types` are the types of what it gives.
    Set {
        op: SetOp,
        pipes: Items<u32>,
        types: Items<Ty>,
    },
}

/// A step that takes row after row.
#[derive(Drop)]
pub enum Step {
    /// The rows of a read relation are tested by the types of its columns, then filtered, and then the columns of the mask are
    /// taken, in its order.
    Read {
        relation: u32,
        names: Items<ByteList>,
        types: Items<Ty>,
        filter: Option<Expr>,
        mask: Items<u32>,
    },
    /// The rows for which the condition is true, for the relation of this number.
    Filter {
        relation: u32,
        condition: Expr,
    },
    /// The values of the expressions behind each row.
    Project {
        relation: u32,
        exprs: Items<Expr>,
    },
    /// These columns, in this order.
    Keep(Items<u32>),
    /// A join with a table of right rows, by its index among the tables that earlier pipelines built, from 0.
    Probe {
        built: u32,
    },
}

/// What is done with the rows at a pipeline's end.
#[derive(Drop)]
pub enum Breaker {
    /// They stay as they are.
    Gather,
    /// The rows from an offset on: so many at most, or all.
    Fetch { offset: u64, count: Option<u64> },
    Aggregate(AggSpec),
    /// They are put in order by columns, of which the first in which two rows differ decides. Equal rows stay in their order.
    Sort(Items<KeyOrder>),
    /// They become the table of a join's right rows, and nothing is gathered.
    Build(JoinSpec),
    GroupSets(SetSpec),
}

/// A pipeline.
#[derive(Drop)]
pub struct Pipe {
    pub feed: Feed,
    pub steps: Items<Step>,
    pub breaker: Breaker,
}
