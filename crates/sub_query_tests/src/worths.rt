// What subqueries are worth by batches of one number.
use crate::batches::two_batches;
use crate::trees::read;
use plan_leaves::zip;
use plan_typed::{Hole, Sub, SubKind};
use std::alloc::Global;
use sub_query::{Worth, worth_of_batches};
use sub_types::{Fault, FaultKind, NoMemory, Value};

type Found = Result<Result<Worth, Fault>, NoMemory>;

/// A subquery of the relation 4, whose value goes to the first node of the relation 3.
fn sub(alloc: Global, kind: SubKind) -> Result<Sub, NoMemory> {
    Ok(Sub {
        rel: read(alloc, 4)?,
        kind,
        hole: Hole {
            relation: 3,
            node: 0,
        },
    })
}

/// By two batches, of which the first has no row.
fn by_batches(alloc: Global, kind: SubKind, list: &[i64]) -> Found {
    let (sub, batches) = zip(sub(alloc, kind), two_batches(alloc, list))?;
    worth_of_batches(alloc, &sub, batches.as_slice())
}

fn is_number(found: Found, want: i64) -> bool {
    match found {
        Ok(Ok(Worth::Single(Value::Int(number)))) => number == want,
        _ => false,
    }
}

fn is_null(found: Found) -> bool {
    matches!(found, Ok(Ok(Worth::Single(Value::Null))))
}

fn is_truth(found: Found, want: bool) -> bool {
    match found {
        Ok(Ok(Worth::Single(Value::Bool(truth)))) => truth == want,
        _ => false,
    }
}

fn is_many(found: Found) -> bool {
    match found {
        Ok(Err(fault)) => fault.relation == 4 && fault.kind == FaultKind::ManyRows,
        _ => false,
    }
}

fn has_count(found: Found, count: usize) -> bool {
    match found {
        Ok(Ok(Worth::Among { found, .. })) => found.len() == count,
        _ => false,
    }
}

#[test]
fn scalars_of_batches(rt: HostRuntime) {
    let alloc = rt.alloc();
    assert!(rt; is_null(by_batches(alloc, SubKind::Scalar, &[])));
    assert!(rt; is_number(by_batches(alloc, SubKind::Scalar, &[8]), 8));
    assert!(rt; is_many(by_batches(alloc, SubKind::Scalar, &[8, 9])));
}

#[test]
fn lists(rt: HostRuntime) {
    let alloc = rt.alloc();
    assert!(rt; has_count(by_batches(alloc, SubKind::In, &[]), 0));
    assert!(rt; has_count(by_batches(alloc, SubKind::In, &[5, 5]), 2));
}

#[test]
fn whether_there_is_a_row(rt: HostRuntime) {
    let alloc = rt.alloc();
    assert!(rt; is_truth(by_batches(alloc, SubKind::Exists, &[]), false));
    assert!(rt; is_truth(by_batches(alloc, SubKind::Exists, &[5]), true));
}
