// The conditions of joins: as a whole, and taken apart.
ghost use Rattle.std.specs.Prelude.{◌≡◌, IfOk};
ghost use Rattle.std.specs.List.{AllByRecursion};
ghost use Rattle.plan_pipes.specs.TypeMeaning.{IsKeyOver};
ghost use Rattle.hash_join_tests.specs.Typed.{IsOfNumbers, numbers};

use crate::batches::NUMBER;
use crate::calls::{TRUTH, call, column};
use crate::rests::{Rest, rest_of};
use plan_leaves::Items;
use plan_typed::{Expr, Func, JoinKind, Overflow};
use rel_specs::JoinSpec;
use std::alloc::Global;
use sub_types::{NoMemory, Ty, Value};

/// The number of the join's relation.
pub(crate) const RELATION: u32 = 7;

/// What a join's condition is: whether it has a key, and which rest.
#[derive(Clone, Copy)]
pub(crate) struct Condition {
    pub(crate) keyed: bool,
    pub(crate) rest: Rest,
}

// The whole condition, of which there is one.
pub(crate) fn whole(alloc: Global, condition: Condition) -> Result<Expr, NoMemory> {
    let mut parts = Items::new(alloc);
    if condition.keyed {
        parts.push(call(alloc, Func::Equal, column(0), column(2), TRUTH)?)?;
    }
    for part in rest_of(alloc, condition.rest)? {
        parts.push(part)?;
    }
    parts.push(truth(true))?;
    Ok(Expr::Call {
        func: Func::And,
        mode: Overflow::Error,
        args: parts,
        ty: TRUTH,
    })
}

// The join with its condition taken apart.
pub(crate) fn spec_of(
    alloc: Global,
    kind: JoinKind,
    condition: Condition,
) -> Result<JoinSpec, NoMemory>
    ensures { IfOk result (λ spec. IsOfNumbers spec) }
{
    let keys = keys_of(alloc, condition.keyed)?;
    let rest = rest_of(alloc, condition.rest)?;
    let left = types(alloc)?;
    let right = types(alloc)?;
    Ok(JoinSpec {
        kind,
        keys,
        rest,
        left,
        right,
        relation: RELATION,
    })
}

fn types(alloc: Global) -> Result<Vec<Ty>, NoMemory>
    ensures { IfOk result (λ types. types.items ≡ numbers) }
{
    let mut types = Vec::new(alloc);
    types.push(NUMBER)?;
    types.push(NUMBER)?;
    Ok(types)
}

fn keys_of(alloc: Global, keyed: bool) -> Result<Vec<(u32, u32)>, NoMemory>
    ensures { IfOk result (λ keys. AllByRecursion (IsKeyOver numbers numbers) keys.items) }
{
    if keyed { one_key(alloc) } else { no_key(alloc) }
}

fn one_key(alloc: Global) -> Result<Vec<(u32, u32)>, NoMemory>
    ensures { IfOk result (λ keys. AllByRecursion (IsKeyOver numbers numbers) keys.items) }
{
    let mut keys = Vec::new(alloc);
    keys.push((0, 0))?;
    Ok(keys)
}

fn no_key(alloc: Global) -> Result<Vec<(u32, u32)>, NoMemory>
    ensures { IfOk result (λ keys. AllByRecursion (IsKeyOver numbers numbers) keys.items) }
{
    Ok(Vec::new(alloc))
}

fn truth(truth: bool) -> Expr {
    Expr::Const {
        value: Value::Bool(truth),
        ty: TRUTH,
    }
}
