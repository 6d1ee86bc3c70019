// What is done with two columns of numbers at a pipeline's end.
ghost use Rattle.std.specs.Prelude.{◌≡◌, ◌∷◌, [], IfOk};
ghost use Rattle.pipe_types.specs.Over.{IsBreakerOver};
ghost use Rattle.pipe_round_tests.specs.Breakers.{first_column, second_sum};

use crate::batches::NUMBER;
use crate::random::Random;
use plan_leaves::Items;
use plan_pipes::Breaker;
use plan_typed::{Expr, Func, TypedMeasure};
use rel_specs::{AggSpec, KeyOrder};
use std::alloc::Global;
use sub_types::NoMemory;

/// The number of each aggregate's relation.
const RELATION: u32 = 9;

/// The rows stay as they are, or some of them are taken, or they are put in order or grouped.
pub(crate) fn random_breaker(alloc: Global, random: &mut Random) -> Result<Breaker, NoMemory>
    ensures { IfOk result (IsBreakerOver (NUMBER ∷ NUMBER ∷ [])) }
{
    match random.below(4) {
        0 => Ok(Breaker::Gather),
        1 => Ok(Breaker::Fetch {
            offset: random.below(5),
            count: Some(random.below(9)),
        }),
        2 => sorted(alloc, random),
        _ => grouped(alloc),
    }
}

// In the order of the second column, so that rows that are equal there stay in their order.
fn sorted(alloc: Global, random: &mut Random) -> Result<Breaker, NoMemory>
    ensures { IfOk result (IsBreakerOver (NUMBER ∷ NUMBER ∷ [])) }
{
    let descending = random.below(2) == 0;
    let nulls_first = random.below(2) == 0;
    let keys = by_second(alloc, descending, nulls_first)?;
    Ok(Breaker::Sort(keys))
}

fn by_second(
    alloc: Global,
    descending: bool,
    nulls_first: bool,
) -> Result<Items<KeyOrder>, NoMemory>
    ensures { IfOk result (λ keys. keys ≡ record { column = 1; descending = descending; nulls_first = nulls_first } ∷ []) }
{
    let mut keys = Vec::new(alloc);
    keys.push(KeyOrder {
        column: 1,
        descending,
        nulls_first,
    })?;
    Ok(Items::from_vec(keys))
}

// The sum of the second column for each value of the first.
fn grouped(alloc: Global) -> Result<Breaker, NoMemory>
    ensures { IfOk result (IsBreakerOver (NUMBER ∷ NUMBER ∷ [])) }
{
    let groups = by_first(alloc)?;
    let measures = sums(alloc)?;
    Ok(Breaker::Aggregate(AggSpec {
        groups,
        measures,
        relation: RELATION,
    }))
}

fn by_first(alloc: Global) -> Result<Vec<Expr>, NoMemory>
    ensures { IfOk result (λ groups. groups.items ≡ first_column ∷ []) }
{
    let mut groups = Vec::new(alloc);
    groups.push(Expr::Column {
        index: 0,
        ty: NUMBER,
    })?;
    Ok(groups)
}

fn sums(alloc: Global) -> Result<Vec<TypedMeasure>, NoMemory>
    ensures { IfOk result (λ measures. measures.items ≡ second_sum ∷ []) }
{
    let mut measures = Vec::new(alloc);
    measures.push(TypedMeasure {
        func: Func::Sum,
        arg: Some(Expr::Column {
            index: 1,
            ty: NUMBER,
        }),
        filter: None,
        ty: NUMBER,
    })?;
    Ok(measures)
}
