// Copies of checked relations and plans.
ghost use Rattle.std.specs.Prelude.{◌≡◌, IfOk};

use crate::{Op, Rel, SetMeasure, SortKey, Source, Typed, TypedMeasure};
use plan_leaves::{Boxed, CopyIn, Items, zip};
use std::alloc::Global;
use sub_types::NoMemory;

impl Typed {
    /// An equal plan.
    pub fn copy(&self, alloc: Global) -> Result<Typed, NoMemory>
        ensures { IfOk result (λ copy. copy ≡ self.now) }
    {
        let (rel, names) = zip(copy_rel(alloc, &self.rel), self.names.copy_in(alloc))?;
        Ok(Typed { rel, names })
    }
}

impl Rel {
    /// An equal relation.
    pub fn copy(&self, alloc: Global) -> Result<Rel, NoMemory>
        ensures { IfOk result (λ copy. copy ≡ self.now) }
    {
        copy_rel(alloc, self)
    }
}

impl CopyIn for TypedMeasure {
    fn copy_in(&self, alloc: Global) -> Result<Self, NoMemory> {
        let (arg, filter) = zip(self.arg.copy_in(alloc), self.filter.copy_in(alloc))?;
        Ok(TypedMeasure {
            func: self.func,
            arg,
            filter,
            ty: self.ty,
        })
    }
}

impl CopyIn for SetMeasure {
    fn copy_in(&self, alloc: Global) -> Result<Self, NoMemory> {
        Ok(SetMeasure {
            measure: self.measure.copy_in(alloc)?,
            distinct: self.distinct,
        })
    }
}

impl CopyIn for SortKey {
    fn copy_in(&self, alloc: Global) -> Result<Self, NoMemory> {
        Ok(SortKey {
            expr: self.expr.copy_in(alloc)?,
            descending: self.descending,
            nulls_first: self.nulls_first,
        })
    }
}

impl CopyIn for Source {
    fn copy_in(&self, alloc: Global) -> Result<Self, NoMemory> {
        match self {
            Source::Named(names) => Ok(Source::Named(names.copy_in(alloc)?)),
            Source::Rows(rows) => Ok(Source::Rows(rows.copy_in(alloc)?)),
        }
    }
}

#[cycle(rel_copy)]
fn copy_rel(alloc: Global, rel: &Rel) -> Result<Rel, NoMemory>
    ensures { IfOk result (λ copy. copy ≡ rel.now) }
{
    let lists = zip(rel.emit.copy_in(alloc), rel.columns.copy_in(alloc));
    let (op, (emit, columns)) = zip(copy_op(alloc, &rel.op), lists)?;
    Ok(Rel {
        number: rel.number,
        op,
        emit,
        columns,
    })
}

#[cycle(rel_copy)]
fn copy_boxed(alloc: Global, rel: &Boxed<Rel>) -> Result<Boxed<Rel>, NoMemory>
    ensures { IfOk result (λ copy. copy ≡ rel.now) }
{
    Boxed::new(alloc, copy_rel(alloc, rel.get())?)
}

#[cycle(rel_copy)]
fn copy_rels(alloc: Global, rels: &[Rel]) -> Result<Items<Rel>, NoMemory>
    ensures { IfOk result (λ copies. copies ≡ rels.now) }
{
    let mut copies = Vec::with_capacity(alloc, rels.len())?;
    for rel in rels {
        copies.push(copy_rel(alloc, rel)?)?;
    }
    Ok(Items::from_vec(copies))
}

#[cycle(rel_copy)]
fn copy_op(alloc: Global, op: &Op) -> Result<Op, NoMemory>
    ensures { IfOk result (λ copy. copy ≡ op.now) }
{
    match op {
        Op::Read {
            source,
            names,
            types,
            filter,
            mask,
        } => {
            let columns = zip(names.copy_in(alloc), types.copy_in(alloc));
            let rows = zip(source.copy_in(alloc), filter.copy_in(alloc));
            let (((names, types), mask), (source, filter)) = zip(
                zip(columns, mask.copy_in(alloc)),
                rows,
            )?;
            Ok(Op::Read {
                source,
                names,
                types,
                filter,
                mask,
            })
        }
        Op::Filter { input, condition } => {
            let (input, condition) = zip(copy_boxed(alloc, input), condition.copy(alloc))?;
            Ok(Op::Filter { input, condition })
        }
        Op::Project { input, exprs } => {
            let (input, exprs) = zip(copy_boxed(alloc, input), exprs.copy_in(alloc))?;
            Ok(Op::Project { input, exprs })
        }
        Op::Fetch {
            input,
            offset,
            count,
        } => Ok(Op::Fetch {
            input: copy_boxed(alloc, input)?,
            offset: *offset,
            count: *count,
        }),
        Op::Sort { input, keys } => {
            let (input, keys) = zip(copy_boxed(alloc, input), keys.copy_in(alloc))?;
            Ok(Op::Sort { input, keys })
        }
        Op::Aggregate {
            input,
            groups,
            measures,
        } => {
            let lists = zip(groups.copy_in(alloc), measures.copy_in(alloc));
            let (input, (groups, measures)) = zip(copy_boxed(alloc, input), lists)?;
            Ok(Op::Aggregate {
                input,
                groups,
                measures,
            })
        }
        Op::GroupSets {
            input,
            groups,
            sets,
            measures,
        } => {
            let lists = zip(groups.copy_in(alloc), sets.copy_in(alloc));
            let ((input, (groups, sets)), measures) = zip(
                zip(copy_boxed(alloc, input), lists),
                measures.copy_in(alloc),
            )?;
            Ok(Op::GroupSets {
                input,
                groups,
                sets,
                measures,
            })
        }
        Op::Join {
            left,
            right,
            kind,
            on,
            post,
        } => {
            let inputs = zip(copy_boxed(alloc, left), copy_boxed(alloc, right));
            let ((left, right), (on, post)) = zip(
                inputs,
                zip(on.copy(alloc), post.copy_in(alloc)),
            )?;
            Ok(Op::Join {
                left,
                right,
                kind: *kind,
                on,
                post,
            })
        }
        Op::Cross { left, right } => {
            let (left, right) = zip(copy_boxed(alloc, left), copy_boxed(alloc, right))?;
            Ok(Op::Cross { left, right })
        }
        Op::Set { inputs, op } => Ok(Op::Set {
            inputs: copy_rels(alloc, inputs.as_slice())?,
            op: *op,
        }),
    }
}
