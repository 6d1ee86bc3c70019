// A plan with one subquery, worked out.
use crate::batches::two_batches;
use crate::trees::{exprs_of, null, number_in, one, project, read};
use batch::Batch;
use plan_leaves::{Items, zip};
use plan_typed::{Hole, Holed, Rel, Sub, SubKind, Typed};
use std::alloc::Global;
use sub_query::Filling;
use sub_types::{Fault, FaultKind, NoMemory};

/// A scalar of the relation 4, whose value goes to the null of the main relation.
fn scalar(alloc: Global) -> Result<Sub, NoMemory> {
    Ok(Sub {
        rel: read(alloc, 4)?,
        kind: SubKind::Scalar,
        hole: Hole {
            relation: 1,
            node: 0,
        },
    })
}

fn plan(alloc: Global) -> Result<Filling, NoMemory> {
    let main = project(alloc, 1, read(alloc, 2), one(alloc, null()));
    let (rel, subs) = zip(main, one(alloc, scalar(alloc)))?;
    let typed = Typed {
        rel,
        names: Items::new(alloc),
    };
    Ok(Filling::new(alloc, Holed { typed, subs }))
}

/// The next subquery has these rows.
fn step(alloc: Global, filling: &mut Filling, rows: &[Batch]) -> Result<Option<Fault>, NoMemory> {
    match filling.next_rel(alloc)? {
        Some(_) => filling.fill(alloc, rows),
        None => Ok(None),
    }
}

fn main_after(alloc: Global, list: &[i64]) -> Result<Rel, NoMemory> {
    let (mut filling, rows) = zip(plan(alloc), two_batches(alloc, list))?;
    let _ = step(alloc, &mut filling, rows.as_slice());
    filling.main_rel(alloc)
}

fn gives(alloc: Global, list: &[i64], want: Option<i64>) -> bool {
    match main_after(alloc, list) {
        Ok(main) => number_in(exprs_of(&main).first()) == want,
        Err(_) => false,
    }
}

fn fault_of(alloc: Global, list: &[i64]) -> Result<Option<Fault>, NoMemory> {
    let (mut filling, rows) = zip(plan(alloc), two_batches(alloc, list))?;
    step(alloc, &mut filling, rows.as_slice())
}

fn has_many_rows(alloc: Global) -> bool {
    match fault_of(alloc, &[8, 9]) {
        Ok(Some(fault)) => fault.relation == 4 && fault.kind == FaultKind::ManyRows,
        _ => false,
    }
}

#[test]
fn a_value_goes_to_the_main_relation(rt: HostRuntime) {
    let alloc = rt.alloc();
    assert!(rt; gives(alloc, &[8], Some(8)));
    assert!(rt; gives(alloc, &[8, 9], None));
    assert!(rt; has_many_rows(alloc));
}
