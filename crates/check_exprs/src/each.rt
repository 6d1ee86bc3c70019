// Checks of each of a list, in order.
ghost use Rattle.std.specs.Prelude.{map};
ghost use Rattle.std.specs.List.{zip};
ghost use Rattle.plan_verdict.specs.Checking.{Checking, Comes, in_order};

use plan_leaves::Items;
use plan_verdict::{CheckError, Progress};
use std::alloc::Global;

/// What the check gives of each, in order, up to the first refusal.
pub fn each_of<T, A, F>(
    alloc: Global,
    progress: Progress,
    all: &[T],
    check: F,
) -> Result<(Items<A>, Progress), CheckError>
where
    A: Drop,
    F: Fn(Progress, &T) -> Result<(A, Progress), CheckError>,
    requires { (progress : _) (one : _) → F.pre check progress one }
    ensures { (f : T → Checking A) → ((progress : _) (one : _) (result : _) → F.post check progress one result → Comes result (f one.now progress)) → Comes result (in_order (map f all.now) progress) }
{
    let mut progress = progress;
    let mut checked = Items::new(alloc);
    for one in all {
        let (value, after) = check(progress, one)?;
        progress = after;
        checked.push(value)?;
    }
    Ok((checked, progress))
}

/// The same of two lists side by side.
pub fn each_of_two<T, U, A, F>(
    alloc: Global,
    progress: Progress,
    firsts: &[T],
    seconds: &[U],
    check: F,
) -> Result<(Items<A>, Progress), CheckError>
where
    A: Drop,
    F: Fn(Progress, &T, &U) -> Result<(A, Progress), CheckError>,
    requires { (progress : _) (first : _) (second : _) → F.pre check progress first second }
    ensures { (f : T → U → Checking A) → ((progress : _) (first : _) (second : _) (result : _) → F.post check progress first second result → Comes result (f first.now second.now progress)) → Comes result (in_order (map (λ pair. f pair.0 pair.1) (zip firsts.now seconds.now)) progress) }
{
    let mut progress = progress;
    let mut checked = Items::new(alloc);
    for (first, second) in firsts.iter().zip(seconds) {
        let (value, after) = check(progress, first, second)?;
        progress = after;
        checked.push(value)?;
    }
    Ok((checked, progress))
}
