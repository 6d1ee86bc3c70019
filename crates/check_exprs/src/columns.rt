// Lists of columns.
ghost use Rattle.std.specs.Prelude.{◌≡◌, ◌++◌, IfOk, map};
ghost use Rattle.plan_typed.specs.Types.{columns_of, ty_of};

use plan_leaves::Items;
use plan_typed::{Expr, Rel};
use std::alloc::Global;
use sub_types::{NoMemory, Ty};

/// The same columns.
pub fn copied(alloc: Global, columns: &[Ty]) -> Result<Items<Ty>, NoMemory>
    ensures { IfOk result (λ copy. copy ≡ columns.now) }
{
    let mut copy = Vec::with_capacity(alloc, columns.len())?;
    copy.extend_from_slice(columns)?;
    Ok(Items::from_vec(copy))
}

/// The columns of the one and then of the other.
pub fn joined(alloc: Global, left: &[Ty], right: &[Ty]) -> Result<Items<Ty>, NoMemory>
    ensures { IfOk result (λ both. both ≡ left.now ++ right.now) }
{
    let mut both = Vec::new(alloc);
    both.extend_from_slice(left)?;
    both.extend_from_slice(right)?;
    Ok(Items::from_vec(both))
}

/// The types of expressions.
pub fn types_of(alloc: Global, exprs: &[Expr]) -> Result<Items<Ty>, NoMemory>
    ensures { IfOk result (λ types. types ≡ map ty_of exprs.now) }
{
    let mut types = Items::new(alloc);
    for expr in exprs {
        types.push(expr.ty())?;
    }
    Ok(types)
}

/// The columns of each relation.
pub fn columns_of_each(alloc: Global, rels: &[Rel]) -> Result<Items<Items<Ty>>, NoMemory>
    ensures { IfOk result (λ columns. columns ≡ map columns_of rels.now) }
{
    let mut columns = Items::new(alloc);
    for rel in rels {
        columns.push(copied(alloc, rel.columns.as_slice())?)?;
    }
    Ok(columns)
}
