// Joins of two columns of numbers on each side.
ghost use Rattle.std.specs.Prelude.{◌≡◌, ◌∷◌, [], IfOk};
ghost use Rattle.std.specs.List.{All, AllByRecursion};
ghost use Rattle.well_typed.specs.WellTyped.{IsConditionOver};
ghost use Rattle.plan_pipes.specs.TypeMeaning.{IsKeyOver};
ghost use Rattle.hash_join.specs.Built.{IsJoinable};
ghost use Rattle.pipe_round_tests.specs.Steps.{sides};

use crate::batches::NUMBER;
use crate::random::Random;
use crate::rests::{Rest, rest_of};
use plan_typed::JoinKind;
use rel_specs::JoinSpec;
use std::alloc::Global;
use sub_types::{NoMemory, Ty};

/// The number of each join's relation.
const RELATION: u32 = 7;

/// What a join's condition is: whether it has a key, and which rest.
#[derive(Clone, Copy)]
struct Condition {
    keyed: bool,
    rest: Rest,
}

/// A join of a kind and a condition that look random.
pub(crate) fn random_spec(alloc: Global, random: &mut Random) -> Result<JoinSpec, NoMemory>
    ensures joinable { IfOk result (λ spec. IsJoinable spec) }
    ensures left { IfOk result (λ spec. spec.left.items ≡ NUMBER ∷ NUMBER ∷ []) }
    ensures right { IfOk result (λ spec. spec.right.items ≡ NUMBER ∷ NUMBER ∷ []) }
    ensures rest { IfOk result (λ spec. All (IsConditionOver sides) spec.rest.items) }
{
    let kind = kind_of(random);
    let condition = condition_of(random);
    let spec = spec_of(alloc, kind, condition)?;
    Ok(spec)
}

fn kind_of(random: &mut Random) -> JoinKind {
    match random.below(6) {
        0 => JoinKind::Inner,
        1 => JoinKind::Outer,
        2 => JoinKind::Left,
        3 => JoinKind::Right,
        4 => JoinKind::LeftSemi,
        _ => JoinKind::LeftAnti,
    }
}

fn condition_of(random: &mut Random) -> Condition {
    let keyed = random.below(4) != 0;
    let rest = match random.below(3) {
        0 => Rest::None,
        1 => Rest::Less,
        _ => Rest::Quotient,
    };
    Condition { keyed, rest }
}

// The join with its condition taken apart.
fn spec_of(alloc: Global, kind: JoinKind, condition: Condition) -> Result<JoinSpec, NoMemory>
    ensures joinable { IfOk result (λ spec. IsJoinable spec) }
    ensures left { IfOk result (λ spec. spec.left.items ≡ NUMBER ∷ NUMBER ∷ []) }
    ensures right { IfOk result (λ spec. spec.right.items ≡ NUMBER ∷ NUMBER ∷ []) }
    ensures rest { IfOk result (λ spec. All (IsConditionOver sides) spec.rest.items) }
{
    let keys = keys_of(alloc, condition.keyed)?;
    let rest = rest_of(alloc, condition.rest)?;
    let left = types(alloc)?;
    let right = types(alloc)?;
    Ok(JoinSpec {
        kind,
        keys,
        rest,
        left,
        right,
        relation: RELATION,
    })
}

fn types(alloc: Global) -> Result<Vec<Ty>, NoMemory>
    ensures { IfOk result (λ types. types.items ≡ NUMBER ∷ NUMBER ∷ []) }
{
    let mut types = Vec::new(alloc);
    types.push(NUMBER)?;
    types.push(NUMBER)?;
    Ok(types)
}

fn keys_of(alloc: Global, keyed: bool) -> Result<Vec<(u32, u32)>, NoMemory>
    ensures { IfOk result (λ keys. AllByRecursion (IsKeyOver (NUMBER ∷ NUMBER ∷ []) (NUMBER ∷ NUMBER ∷ [])) keys.items) }
{
    if keyed { one_key(alloc) } else { no_key(alloc) }
}

fn one_key(alloc: Global) -> Result<Vec<(u32, u32)>, NoMemory>
    ensures { IfOk result (λ keys. AllByRecursion (IsKeyOver (NUMBER ∷ NUMBER ∷ []) (NUMBER ∷ NUMBER ∷ [])) keys.items) }
{
    let mut keys = Vec::new(alloc);
    keys.push((0, 0))?;
    Ok(keys)
}

fn no_key(alloc: Global) -> Result<Vec<(u32, u32)>, NoMemory>
    ensures { IfOk result (λ keys. AllByRecursion (IsKeyOver (NUMBER ∷ NUMBER ∷ []) (NUMBER ∷ NUMBER ∷ [])) keys.items) }
{
    Ok(Vec::new(alloc))
}
