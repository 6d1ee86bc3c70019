// Lists, item by item.
ghost use Rattle.std.specs.List.{filter_map};
ghost use Rattle.std.specs.Prelude.{◌≡◌, Option, Result, map, IfOk};
ghost use Rattle.plan_denote.specs.Rows.{collect};
ghost use Rattle.row_steps.specs.Seen.{Comes};
ghost use Rattle.sub_types.specs.declared.fault.FaultKind.{FaultKind};

use eval_values::EvalError;
use plan_leaves::Items;
use std::alloc::Global;
use sub_types::NoMemory;

/// What is made of each item.
pub fn map_of<A, B, F>(alloc: Global, all: &[A], made: F) -> Result<Items<B>, NoMemory>
where
    B: Drop,
    F: Fn(&A) -> Result<B, NoMemory>,
    requires { (one : _) → F.pre made one }
    ensures { (f : A → B) → ((one : _) (result : _) → F.post made one result → IfOk result (λ found. found ≡ f one.now)) → IfOk result (λ found. found ≡ map f all.now) }
{
    let mut found = Items::new(alloc);
    for one in all {
        found.push(made(one)?)?;
    }
    Ok(found)
}

/// The same of items that are used up.
pub fn map_into<A, B, F>(alloc: Global, all: Items<A>, made: F) -> Result<Items<B>, NoMemory>
where
    A: Drop,
    B: Drop,
    F: Fn(A) -> Result<B, NoMemory>,
    requires { (one : _) → F.pre made one }
    ensures { (f : A → B) → ((one : _) (result : _) → F.post made one result → IfOk result (λ found. found ≡ f one)) → IfOk result (λ found. found ≡ map f all) }
{
    let mut found = Items::new(alloc);
    for one in all.into_vec() {
        found.push(made(one)?)?;
    }
    Ok(found)
}

/// What each item is worth, or the first fault.
pub fn collect_of<A, B, F>(alloc: Global, all: &[A], worth: F) -> Result<Items<B>, EvalError>
where
    B: Drop,
    F: Fn(&A) -> Result<B, EvalError>,
    requires { (one : _) → F.pre worth one }
    ensures { (f : A → Result B FaultKind) → ((one : _) (result : _) → F.post worth one result → Comes result (f one.now)) → Comes result (collect (map f all.now)) }
{
    let mut found = Items::new(alloc);
    for one in all {
        found.push(worth(one)?)?;
    }
    Ok(found)
}

/// What is made of each item, where something is.
pub fn filter_map_of<A, B, F>(alloc: Global, all: &[A], made: F) -> Result<Items<B>, NoMemory>
where
    B: Drop,
    F: Fn(&A) -> Result<Option<B>, NoMemory>,
    requires { (one : _) → F.pre made one }
    ensures { (f : A → Option B) → ((one : _) (result : _) → F.post made one result → IfOk result (λ found. found ≡ f one.now)) → IfOk result (λ found. found ≡ filter_map f all.now) }
{
    let mut found = Items::new(alloc);
    for one in all {
        if let Some(item) = made(one)? {
            found.push(item)?;
        }
    }
    Ok(found)
}
