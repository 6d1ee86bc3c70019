// The groups of an aggregate, and where the first of each expression stands.
ghost use Rattle.std.specs.Prelude.{◌≡◌, [], IfOk, OnErr, length, map};
ghost use Rattle.plan_keys.specs.Groups.{IsPlaced};

use crate::first_places::FirstPlaces;
use crate::group_place::GroupPlace;
use plan_leaves::Items;
use plan_typed::Expr;
use plan_verdict::Group;
use std::alloc::Global;
use std::marker::Model;
use sub_types::NoMemory;

/// The groups of an aggregate in order, which contracts see as their list. An equal group is found by its key.
#[derive(Drop)]
pub struct GroupIndex {
    alloc: Global,
    groups: Items<Group>,
    places: FirstPlaces,
}

impl Model for GroupIndex {
    ghost use Rattle.std.specs.Prelude.{List};
    ghost use Rattle.plan_verdict.specs.declared.groups.Group.{Group};
    ghost use Rattle.std.specs.Coded.{codes};
    ghost use Rattle.plan_typed.specs.contracts.expr.Expr as expr;

    ghost Value = { List Group };

    ghost coded = { Prim.hlevel (codes, expr.the_row.coded) };

    ghost use Rattle.plan_keys.specs.Places.{IsIndex};

    ghost view = { λ index. index.groups };

    ghost invariant = { λ index. IsIndex index.groups index.places };
}

impl GroupIndex {
    /// No groups.
    pub fn new(alloc: Global) -> GroupIndex
        ensures { result ≡ [] }
    {
        GroupIndex {
            alloc,
            groups: Items::new(alloc),
            places: FirstPlaces::new(alloc),
        }
    }

    pub fn len(&self) -> usize
        ensures { result ≡ length self.now }
    {
        self.groups.len()
    }

    /// The place of a group: that of the first equal one, or that behind all others, where it is put.
    pub fn find_or_push(&mut self, group: Group) -> Result<GroupPlace, NoMemory>
        ensures place { IfOk result (IsPlaced self.old self.new group) }
        ensures err { OnErr result (self.new ≡ self.old) }
    {
        self.places
            .find_or_push(self.alloc, &mut self.groups, group)
    }

    /// The expressions of the groups.
    pub fn into_exprs(self) -> Result<Items<Expr>, NoMemory>
        ensures { IfOk result (λ exprs. exprs ≡ map (λ group. group.expr) self) }
    {
        let GroupIndex {
            alloc,
            groups,
            places: _,
        } = self;
        exprs_of(alloc, groups)
    }
}

/// The expressions of groups.
fn exprs_of(alloc: Global, groups: Items<Group>) -> Result<Items<Expr>, NoMemory>
    ensures { IfOk result (λ exprs. exprs ≡ map (λ group. group.expr) groups) }
{
    let mut exprs = Items::new(alloc);
    for group in groups.into_vec() {
        exprs.push(group.expr)?;
    }
    Ok(exprs)
}
