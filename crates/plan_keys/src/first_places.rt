// The first places of groups by the keys of their expressions.
//
// Each key has a slot of a table, which keeps the first place of a group with that slot. The first place of another key
// with the same slot is kept in an ordered map, so that keys that were chosen to have one slot are found in logarithmic
// time. There are at least four times as many slots as groups, so that few keys are kept there.
ghost use Rattle.std.specs.Prelude.{◌≡◌, ◌+◌, ◌<◌, ◌++◌, ◌∷◌, [], false, IfOk, OnOk, OnErr, length, position, take};
ghost use Rattle.plan_keys.specs.Keys.{expr_key};
ghost use Rattle.plan_keys.specs.Places as spec;
ghost use Rattle.plan_verdict.specs.Aggregates.{is_same_group};
ghost use Rattle.plan_keys.specs.Groups.{IsPlaced};
ghost use Rattle.plan_keys.specs.Places.{IsFound, IsIndex, IsSpot, IsSpotOf, KeepsAll, KeepsAt};
ghost use Rattle.plan_keys.specs.declared.group_place.GroupPlace.TheVariants.{New};

use crate::digests::digest_of;
use crate::group_place::GroupPlace;
use crate::keys::key_of;
use plan_leaves::Items;
use plan_rules::{beside, is_same};
use plan_verdict::Group;
use std::alloc::Global;
use std::collections::BTreeMap;
use std::mem::drop;
use sub_types::NoMemory;

/// How many slots there are at first.
const FIRST_SLOTS: usize = 255;

/// What is found of a group among others.
#[derive(Drop)]
pub(crate) enum Found {
    /// The place of the first equal group.
    At(u32),
    /// No group is equal. The place of this one is to be kept at the spot.
    New(Spot),
}

/// Where the first place of a key is kept.
#[derive(Drop)]
pub(crate) enum Spot {
    /// Nowhere: a group with a subquery has no key.
    Nowhere,
    /// In this slot, which is empty.
    Slot(usize),
    /// By the key, since the first place of another is in its slot.
    ByKey(Vec<i128>),
}

/// The first place of each key of a group without a subquery.
#[derive(Drop)]
pub(crate) struct FirstPlaces {
    /// In each slot the first place of a group whose key has it.
    slots: Vec<Option<u32>>,
    /// By each key its first place, where the first group with its slot has another key.
    by_key: BTreeMap<Vec<i128>, u32>,
}

impl FirstPlaces {
    /// The places of no groups.
    pub(crate) fn new(alloc: Global) -> FirstPlaces
        ensures { IsIndex [] result }
    {
        FirstPlaces {
            slots: Vec::new(alloc),
            by_key: BTreeMap::new(alloc),
        }
    }

    /// The places of groups, in so many slots.
    fn of_groups(alloc: Global, groups: &[Group], slots: usize) -> Result<FirstPlaces, NoMemory>
        requires { 0 < slots }
        ensures index { IfOk result (IsIndex groups.now) }
        ensures slots { IfOk result (λ places. 0 < length places.slots.items) }
    {
        let mut places = FirstPlaces {
            slots: vec![in alloc; None; slots]?,
            by_key: BTreeMap::new(alloc),
        };
        for place in 0..groups.len() {
            places.add(alloc, groups, place)?;
        }
        Ok(places)
    }

    /// The place of a group: that of the first equal one, or that behind all others, where it is put.
    pub(crate) fn find_or_push(
        &mut self,
        alloc: Global,
        groups: &mut Items<Group>,
        group: Group,
    ) -> Result<GroupPlace, NoMemory>
        requires { IsIndex groups.old self.old }
        ensures index { IsIndex groups.new self.new }
        ensures place { IfOk result (IsPlaced groups.old groups.new group) }
        ensures err { OnErr result (groups.new ≡ groups.old) }
    {
        let found = self.find_and_reserve(alloc, groups.as_slice(), &group);
        let (group, found) = beside(group, found)?;
        match found {
            Found::At(place) => {
                drop(group);
                Ok(GroupPlace::Found(place))
            }
            Found::New(spot) => self.push(groups, group, spot),
        }
    }

    /// What is found of a group among others, and room for one more.
    fn find_and_reserve(
        &mut self,
        alloc: Global,
        groups: &[Group],
        group: &Group,
    ) -> Result<Found, NoMemory>
        requires { IsIndex groups.now self.old }
        ensures index { IsIndex groups.now self.new }
        ensures slots { OnOk result (0 < length self.new.slots.items) }
        ensures found { IfOk result (IsFound groups.now self.new group.now) }
    {
        self.reserve(alloc, groups)?;
        self.find(alloc, groups, group)
    }

    /// Puts a group behind the others, and keeps its place at the spot.
    fn push(
        &mut self,
        groups: &mut Items<Group>,
        group: Group,
        spot: Spot,
    ) -> Result<GroupPlace, NoMemory>
        requires index { IsIndex groups.old self.old }
        requires slots { 0 < length self.old.slots.items }
        requires new { position (is_same_group group) groups.old ≡ None }
        requires spot { IsSpot self.old group spot }
        ensures index { IsIndex groups.new self.new }
        ensures place { IfOk result (λ place. place ≡ New (length groups.old)) }
        ensures ok { OnOk result (groups.new ≡ groups.old ++ group ∷ []) }
        ensures err { OnErr result (groups.new ≡ groups.old) }
    {
        let (group, place) = beside(group, place_behind(groups.as_slice()))?;
        groups.push(group)?;
        if self.keep(spot, place).is_err() {
            drop(groups.pop());
            return Err(NoMemory);
        }
        Ok(GroupPlace::New(place))
    }

    /// Makes room for one group more behind these.
    fn reserve(&mut self, alloc: Global, groups: &[Group]) -> Result<(), NoMemory>
        requires { IsIndex groups.now self.old }
        ensures index { IsIndex groups.now self.new }
        ensures slots { OnOk result (0 < length self.new.slots.items) }
    {
        let slots = self.slots.len();
        if groups.len() >= slots / 4 {
            *self = FirstPlaces::of_groups(alloc, groups, more_slots(slots))?;
        }
        Ok(())
    }

    /// Adds the group at a place, behind those that stand before it.
    fn add(&mut self, alloc: Global, groups: &[Group], place: usize) -> Result<(), NoMemory>
        requires index { IsIndex (take place groups.now) self.old }
        requires place { place < length groups.now }
        requires slots { 0 < length self.old.slots.items }
        ensures ok { OnOk result (IsIndex (take (place + 1) groups.now) self.new) }
        ensures err { OnErr result (IsIndex (take place groups.now) self.new) }
        ensures slots { length self.new.slots.items ≡ length self.old.slots.items }
    {
        let before = &groups[..place];
        match self.find(alloc, before, &groups[place])? {
            Found::At(_) => Ok(()),
            Found::New(spot) => self.keep(spot, place_behind(before)?),
        }
    }

    /// What is found of a group among others.
    fn find(&self, alloc: Global, groups: &[Group], group: &Group) -> Result<Found, NoMemory>
        requires { IsIndex groups.now self.now }
        ensures { IfOk result (IsFound groups.now self.now group.now) }
    {
        if group.holds_subquery {
            return Ok(Found::New(Spot::Nowhere));
        }
        let key = key_of(alloc, &group.expr)?;
        Ok(self.find_key(groups, group, key))
    }

    /// The same by the key of the group's expression.
    fn find_key(&self, groups: &[Group], group: &Group, key: Vec<i128>) -> Found
        requires index { IsIndex groups.now self.now }
        requires alone { group.now.holds_subquery ≡ false }
        requires key { key.items ≡ expr_key group.now.expr }
        ensures { IsFound groups.now self.now group.now result }
    {
        let slot = self.slot_of(&key);
        let Some(first) = self.first_at(slot) else {
            return Found::New(Spot::Slot(slot));
        };
        if is_same(&group.expr, &groups[first as usize].expr) {
            return Found::At(first);
        }
        match self.by_key.get(key.as_slice()) {
            Some(place) => Found::At(*place),
            None => Found::New(Spot::ByKey(key)),
        }
    }

    /// Keeps a place at a spot.
    fn keep(&mut self, spot: Spot, place: u32) -> Result<(), NoMemory>
        requires { IsSpotOf self.old spot }
        ensures ok { OnOk result (KeepsAt self.old self.new place spot) }
        ensures err { OnErr result (KeepsAll self.old self.new) }
    {
        match spot {
            Spot::Nowhere => {}
            Spot::Slot(slot) => self.slots[slot] = Some(place),
            Spot::ByKey(key) => {
                self.by_key.insert(key, place)?;
            }
        }
        Ok(())
    }

    fn slot_of(&self, key: &[i128]) -> usize
        ensures value { result ≡ spec.slot_in (length self.now.slots.items) key.now }
        ensures within { 0 < length self.now.slots.items → result < length self.now.slots.items }
    {
        digest_of(key) as usize % self.slots.len().max(1)
    }

    /// What a slot keeps.
    fn first_at(&self, slot: usize) -> Option<u32>
        ensures { result ≡ spec.first_at self.now slot }
    {
        match self.slots.get(slot) {
            Some(first) => *first,
            None => None,
        }
    }
}

/// The place behind groups. One that doesn't fit finds no memory.
fn place_behind(groups: &[Group]) -> Result<u32, NoMemory>
    ensures { IfOk result (λ place. place ≡ length groups.now) }
{
    match u32::try_from(groups.len()) {
        Ok(place) => Ok(place),
        Err(_) => Err(NoMemory),
    }
}

/// Eight times as many, or the first ones, and one less than a power of two: the remainder of a digest depends on each of
/// its bits.
fn more_slots(slots: usize) -> usize
    ensures { 0 < result }
{
    slots.saturating_mul(8).saturating_add(7).max(FIRST_SLOTS)
}
