// The root of a plan (Substrait `Plan`, `PlanRel` and `RelRoot`).
ghost use Rattle.std.specs.Prelude.{◌≡◌, IfOk};
ghost use Rattle.pb_wire.specs.Payloads.{fields_of};
ghost use Rattle.plan_parts.specs.Shapes.{child, children};
ghost use Rattle.plan_parts.specs.Rels as rels;
ghost use Rattle.plan_parts.specs.Reader.{reader};

use crate::knot::relation;
use plan_leaves::{Boxed, Items, zip};
use plan_parts::{functions_at, uris_at};
use plan_raw::{PlanTree, RawRel, RootDecl};
use plan_scan::{Message, OneOf, Shape, field};
use std::alloc::Global;
use sub_types::NoMemory;

/// A `Plan`.
pub(crate) fn plan(alloc: Global, message: &Message<'_>) -> Result<PlanTree, NoMemory>
    requires { message.now.shape ≡ Shape.Plan }
    ensures { IfOk result (λ plan. plan ≡ rels.plan_by (reader message.now.below) (fields_of message.now.bytes)) }
{
    Ok(PlanTree {
        uris: uris_at(alloc, message, field::plan::EXTENSION_URIS)?,
        functions: functions_at(alloc, message, field::plan::EXTENSIONS)?,
        roots: roots(alloc, message)?,
    })
}

fn roots(alloc: Global, message: &Message<'_>) -> Result<Items<RootDecl>, NoMemory>
    requires { message.now.shape ≡ Shape.Plan }
    ensures { IfOk result (λ roots. roots ≡ children (reader message.now.below) Shape.PlanRel 3 (fields_of message.now.bytes)) }
{
    let mut roots = Vec::new(alloc);
    let mut left = message.children(field::plan::RELATIONS, Shape::PlanRel);
    while let Some(found) = left.next() {
        roots.push(plan_rel(alloc, &found)?)?;
    }
    Ok(Items::from_vec(roots))
}

fn plan_rel(alloc: Global, message: &Message<'_>) -> Result<RootDecl, NoMemory>
    requires { message.now.shape ≡ Shape.PlanRel }
    ensures { IfOk result (λ root. root ≡ rels.plan_rel_by (reader message.now.below) (fields_of message.now.bytes)) }
{
    match message.oneof(OneOf::PlanRelType) {
        None => Ok(no_root(alloc)),
        Some((number, won)) => member(alloc, number, &won),
    }
}

fn member(alloc: Global, number: u32, won: &Message<'_>) -> Result<RootDecl, NoMemory>
    requires { won.now.shape ≡ Shape.PlanRel }
    ensures { IfOk result (λ root. root ≡ rels.plan_rel_member (reader won.now.below) number (fields_of won.now.bytes)) }
{
    if number == field::plan_rel::ROOT {
        return match rel_root_at(alloc, won)? {
            None => Ok(no_root(alloc)),
            Some(root) => Ok(root),
        };
    }
    Ok(no_root(alloc))
}

fn rel_root_at(alloc: Global, won: &Message<'_>) -> Result<Option<RootDecl>, NoMemory>
    requires { won.now.shape ≡ Shape.PlanRel }
    ensures { IfOk result (λ root. root ≡ child (reader won.now.below) Shape.RelRoot 2 (fields_of won.now.bytes)) }
{
    match won.merged(alloc, field::plan_rel::ROOT, Shape::RelRoot)? {
        None => Ok(None),
        Some(found) => Ok(Some(rel_root(alloc, &found.message())?)),
    }
}

// A `PlanRel` that is no root.
fn no_root(alloc: Global) -> RootDecl
    ensures { result ≡ rels.no_root }
{
    RootDecl {
        is_root: false,
        input: None,
        names: Items::new(alloc),
    }
}

fn rel_root(alloc: Global, message: &Message<'_>) -> Result<RootDecl, NoMemory>
    requires { message.now.shape ≡ Shape.RelRoot }
    ensures { IfOk result (λ root. root ≡ rels.root_by (reader message.now.below) (fields_of message.now.bytes)) }
{
    let (input, names) = zip(
        input_at(alloc, message),
        message.texts(alloc, field::rel_root::NAMES),
    )?;
    Ok(RootDecl {
        is_root: true,
        input,
        names: Items::from_vec(names),
    })
}

// The relation of a root.
fn input_at(alloc: Global, message: &Message<'_>) -> Result<Option<Boxed<RawRel>>, NoMemory>
    requires { message.now.shape ≡ Shape.RelRoot }
    ensures { IfOk result (λ input. input ≡ child (reader message.now.below) Shape.Rel 1 (fields_of message.now.bytes)) }
{
    match message.choice_at(alloc, field::rel_root::INPUT, OneOf::RelType)? {
        None => Ok(None),
        Some(found) => Ok(Some(Boxed::new(alloc, relation(alloc, &found)?)?)),
    }
}
