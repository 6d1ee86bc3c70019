// Groups of columns and sums, and their places.
use plan_keys::{GroupIndex, GroupPlace};
use plan_leaves::Items;
use plan_typed::{Expr, Func, Overflow};
use plan_verdict::Group;
use std::alloc::Global;
use sub_types::{Kind, NoMemory, Ty};

const NUMBER: Ty = Ty {
    kind: Kind::I64,
    nullable: true,
};

fn column(index: u32) -> Group {
    Group {
        expr: Expr::Column { index, ty: NUMBER },
        holds_subquery: false,
    }
}

fn sum(alloc: Global, a: u32, b: u32, holds_subquery: bool) -> Result<Group, NoMemory> {
    let mut args = Items::new(alloc);
    args.push(column(a).expr)?;
    args.push(column(b).expr)?;
    Ok(Group {
        expr: Expr::Call {
            func: Func::Add,
            mode: Overflow::Error,
            args,
            ty: NUMBER,
        },
        holds_subquery,
    })
}

// Whether so many columns and sums are put one behind another.
fn puts_each(alloc: Global, groups: &mut GroupIndex, count: u32) -> Result<bool, NoMemory> {
    for index in 0..count {
        let place = u64::from(index) * 2;
        if !is_new(groups.find_or_push(column(index))?, place)
            || !is_new(
                groups.find_or_push(sum(alloc, index, 0, false)?)?,
                place + 1,
            )
        {
            return Ok(false);
        }
    }
    Ok(true)
}

// Whether each of them is found where it was put.
fn finds_each(alloc: Global, groups: &mut GroupIndex, count: u32) -> Result<bool, NoMemory> {
    for index in 0..count {
        let place = u64::from(index) * 2;
        if !is_found(groups.find_or_push(column(index))?, place)
            || !is_found(
                groups.find_or_push(sum(alloc, index, 0, false)?)?,
                place + 1,
            )
        {
            return Ok(false);
        }
    }
    Ok(true)
}

fn is_new(place: GroupPlace, at: u64) -> bool {
    matches!(place, GroupPlace::New(new) if u64::from(new) == at)
}

fn is_found(place: GroupPlace, at: u64) -> bool {
    matches!(place, GroupPlace::Found(found) if u64::from(found) == at)
}

fn puts_and_finds(alloc: Global, count: u32) -> Result<bool, NoMemory> {
    let mut groups = GroupIndex::new(alloc);
    Ok(puts_each(alloc, &mut groups, count)? && finds_each(alloc, &mut groups, count)?)
}

// Whether sums are found by their arguments in order, and those with a subquery aren't.
fn finds_sums(alloc: Global) -> Result<bool, NoMemory> {
    let mut groups = GroupIndex::new(alloc);
    let are_found = is_new(groups.find_or_push(sum(alloc, 0, 1, true)?)?, 0)
        && is_new(groups.find_or_push(sum(alloc, 1, 0, false)?)?, 1)
        && is_new(groups.find_or_push(sum(alloc, 0, 1, false)?)?, 2)
        && is_found(groups.find_or_push(sum(alloc, 1, 0, false)?)?, 1)
        && is_found(groups.find_or_push(sum(alloc, 0, 1, false)?)?, 2)
        && is_new(groups.find_or_push(sum(alloc, 0, 1, true)?)?, 3);
    Ok(are_found && groups.len() == 4 && groups.into_exprs()?.len() == 4)
}

// Among so many, some have the slot of another.
#[test]
fn each_is_found(rt: HostRuntime) {
    assert!(rt; matches!(puts_and_finds(rt.alloc(), 2000), Ok(true)));
}

#[test]
fn sums_are_found(rt: HostRuntime) {
    assert!(rt; matches!(finds_sums(rt.alloc()), Ok(true)));
}
