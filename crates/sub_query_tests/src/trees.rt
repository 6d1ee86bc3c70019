// Small trees, and what stands in them.
use plan_leaves::{Boxed, Items, zip};
use plan_typed::{Expr, Op, Rel, Source};
use std::alloc::Global;
use sub_types::{Kind, NoMemory, Ty, Value};

pub(crate) const NUMBER: Ty = Ty {
    kind: Kind::I64,
    nullable: true,
};

/// The place of a subquery's value.
pub(crate) fn null() -> Result<Expr, NoMemory> {
    Ok(Expr::Const {
        value: Value::Null,
        ty: NUMBER,
    })
}

/// A list of one.
pub(crate) fn one<T: Drop>(alloc: Global, item: Result<T, NoMemory>) -> Result<Items<T>, NoMemory> {
    with(Ok(Items::new(alloc)), item)
}

/// A list with one more at its end.
pub(crate) fn with<T: Drop>(
    list: Result<Items<T>, NoMemory>,
    item: Result<T, NoMemory>,
) -> Result<Items<T>, NoMemory> {
    let (mut list, item) = zip(list, item)?;
    list.push(item)?;
    Ok(list)
}

/// A read of no rows.
pub(crate) fn read(alloc: Global, number: u32) -> Result<Rel, NoMemory> {
    Ok(relation(
        alloc,
        number,
        Op::Read {
            source: Source::Rows(Items::new(alloc)),
            names: Items::new(alloc),
            types: Items::new(alloc),
            filter: None,
            mask: Items::new(alloc),
        },
    ))
}

pub(crate) fn project(
    alloc: Global,
    number: u32,
    input: Result<Rel, NoMemory>,
    exprs: Result<Items<Expr>, NoMemory>,
) -> Result<Rel, NoMemory> {
    let (input, exprs) = zip(boxed(alloc, input), exprs)?;
    Ok(relation(alloc, number, Op::Project { input, exprs }))
}

fn boxed(alloc: Global, rel: Result<Rel, NoMemory>) -> Result<Boxed<Rel>, NoMemory> {
    Boxed::new(alloc, rel?)
}

fn relation(alloc: Global, number: u32, op: Op) -> Rel {
    Rel {
        number,
        op,
        emit: Items::new(alloc),
        columns: Items::new(alloc),
    }
}

/// The expressions of a projection, or none.
pub(crate) fn exprs_of(rel: &Rel) -> &[Expr] {
    match &rel.op {
        Op::Project { exprs, .. } => exprs.as_slice(),
        _ => &[],
    }
}

/// The number of a constant.
pub(crate) fn number_in(expr: Option<&Expr>) -> Option<i64> {
    match expr {
        Some(
            Expr::Const {
                value: Value::Int(number),
                ..
            },
        ) => Some(*number),
        _ => None,
    }
}
