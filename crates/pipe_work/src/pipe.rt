// The steps of a pipeline, with all that they need.
use pipe_steps::BuiltTable;
use plan_pipes::{Breaker, Step};
use std::marker::Model;
use sub_types::Ty;

/// The steps of a pipeline, the tables that its joins take, the types of the columns of its input, over which the steps are well typed,
/// and its breaker, which is so over what they give. Many workers share them.
#[derive(Drop)]
pub struct PipeSteps<'a> {
    pub steps: &'a [Step],
    pub tables: &'a [BuiltTable],
    pub types: &'a [Ty],
    pub breaker: &'a Breaker,
}

impl<'a> Model for PipeSteps<'a> {
    ghost use Rattle.std.specs.Coded.{codes};
    ghost use Rattle.plan_pipes.specs.contracts.pipe.Breaker as last;
    ghost use Rattle.plan_pipes.specs.contracts.pipe.Step as step;
    ghost use Rattle.plan_pipes.specs.Run.{through};
    ghost use Rattle.pipe_steps.specs.contracts.built.BuiltTable as built;
    ghost use Rattle.pipe_types.specs.Exact.{exact_steps};
    ghost use Rattle.pipe_types.specs.Over.{AreStepsOver, IsBreakerOver};
    ghost use Rattle.pipe_steps.specs.Tables.{joins_of};
    ghost use Rattle.pipe_work.specs.Pipe.{StepsSeen};

    ghost Value = { StepsSeen };

    ghost coded = { Prim.hlevel (codes, step.the_row.coded, built.the_row.coded, last.the_row.coded) };

    ghost view = { λ pipe. record { steps = pipe.steps.now; tables = pipe.tables.now; types = pipe.types.now; breaker = pipe.breaker.now } };

    ghost invariant = { λ pipe. AreStepsOver (joins_of pipe.tables.now) pipe.types.now pipe.steps.now
        × IsBreakerOver (through exact_steps (joins_of pipe.tables.now) pipe.steps.now pipe.types.now) pipe.breaker.now };
}

impl<'a> PipeSteps<'a> {
    ghost use Rattle.std.specs.Prelude.{◌≡◌};
    ghost use Rattle.plan_pipes.specs.Run.{through};
    ghost use Rattle.pipe_types.specs.Exact.{exact_steps};
    ghost use Rattle.pipe_types.specs.Over.{AreStepsOver, IsBreakerOver};
    ghost use Rattle.pipe_steps.specs.Tables.{joins_of};

    /// These steps, over columns of these types, and the breaker behind them.
    pub fn new(
        steps: &'a [Step],
        tables: &'a [BuiltTable],
        types: &'a [Ty],
        breaker: &'a Breaker,
    ) -> PipeSteps<'a>
        requires over { AreStepsOver (joins_of tables.now) types.now steps.now }
        requires breaker { IsBreakerOver (through exact_steps (joins_of tables.now) steps.now types.now) breaker.now }
        ensures seen { result ≡ record { steps = steps.now; tables = tables.now; types = types.now; breaker = breaker.now } }
    {
        PipeSteps {
            steps,
            tables,
            types,
            breaker,
        }
    }
}
