// What is known of the groups of rows one behind the other.
ghost use Rattle.std.specs.Prelude.{List, All, IfOk};
ghost use Rattle.sub_types.specs.Stream.{Stream, followed_by, glue};
ghost use Rattle.plan_denote.specs.Rows.{Row};
ghost use Rattle.aggregate.specs.States.{IsOver, IsOf, IsFor};
ghost use Rattle.group_sets.specs.States.{IsOver as AreSetsOver, IsOf as IsSetsOf, IsFor as AreSetsFor};
ghost use Rattle.pipe_ends.specs.Merged.{AreOf};

use aggregate::Partial;
use group_sets::SetsPartial;
use rel_specs::{AggSpec, SetSpec};
use std::alloc::Global;
use sub_types::{NoMemory, Ty};

/// What is known of the groups of all rows of these types, by what is known of the groups of each part of them in turn.
pub(crate) fn merged_groups(
    alloc: Global,
    spec: &AggSpec,
    types: &[Ty],
    partials: Vec<Partial>,
) -> Result<Partial, NoMemory>
    requires over { IsOver types.now spec.now }
    requires given { All (IsFor types.now spec.now) partials.items }
    ensures of { IfOk result (λ known. (streams : List (Stream Row)) → AreOf (IsOf spec.now) streams partials.items → IsOf spec.now (glue streams) known) }
    ensures over { IfOk result (IsFor types.now spec.now) }
{
    if partials.is_empty() {
        let none = Partial::new(alloc, spec)?;
        return Ok(none);
    }
    let mut rest = partials;
    let first = rest.remove(0);
    let known = groups_behind(spec, types, first, rest)?;
    Ok(known)
}

// The same where there is a first.
fn groups_behind(
    spec: &AggSpec,
    types: &[Ty],
    first: Partial,
    rest: Vec<Partial>,
) -> Result<Partial, NoMemory>
    requires first { IsFor types.now spec.now first }
    requires given { All (IsFor types.now spec.now) rest.items }
    ensures of { IfOk result (λ known. (rows : Stream Row) (streams : List (Stream Row)) → IsOf spec.now rows first → AreOf (IsOf spec.now) streams rest.items → IsOf spec.now (followed_by rows (glue streams)) known) }
    ensures over { IfOk result (IsFor types.now spec.now) }
{
    let mut known = first;
    for later in rest {
        known.merge(spec, later)?;
    }
    Ok(known)
}

/// The same over several sets of groups.
pub(crate) fn merged_sets(
    alloc: Global,
    spec: &SetSpec,
    types: &[Ty],
    partials: Vec<SetsPartial>,
) -> Result<SetsPartial, NoMemory>
    requires over { AreSetsOver types.now spec.now }
    requires given { All (AreSetsFor types.now spec.now) partials.items }
    ensures of { IfOk result (λ known. (streams : List (Stream Row)) → AreOf (IsSetsOf spec.now) streams partials.items → IsSetsOf spec.now (glue streams) known) }
    ensures over { IfOk result (AreSetsFor types.now spec.now) }
{
    if partials.is_empty() {
        let none = SetsPartial::new(alloc, spec)?;
        return Ok(none);
    }
    let mut rest = partials;
    let first = rest.remove(0);
    let known = sets_behind(spec, types, first, rest)?;
    Ok(known)
}

// The same where there is a first.
fn sets_behind(
    spec: &SetSpec,
    types: &[Ty],
    first: SetsPartial,
    rest: Vec<SetsPartial>,
) -> Result<SetsPartial, NoMemory>
    requires first { AreSetsFor types.now spec.now first }
    requires given { All (AreSetsFor types.now spec.now) rest.items }
    ensures of { IfOk result (λ known. (rows : Stream Row) (streams : List (Stream Row)) → IsSetsOf spec.now rows first → AreOf (IsSetsOf spec.now) streams rest.items → IsSetsOf spec.now (followed_by rows (glue streams)) known) }
    ensures over { IfOk result (AreSetsFor types.now spec.now) }
{
    let mut known = first;
    for later in rest {
        known.merge(spec, later)?;
    }
    Ok(known)
}
