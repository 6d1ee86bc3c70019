// Copies of checked expressions.
ghost use Rattle.std.specs.Prelude.{◌≡◌, IfOk};

use crate::Expr;
use plan_leaves::{Boxed, CopyIn, Items, zip};
use std::alloc::Global;
use sub_types::{NoMemory, Value};

impl Expr {
    /// An equal expression.
    pub fn copy(&self, alloc: Global) -> Result<Expr, NoMemory>
        ensures { IfOk result (λ copy. copy ≡ self.now) }
    {
        copy_expr(alloc, self)
    }
}

impl CopyIn for Expr {
    fn copy_in(&self, alloc: Global) -> Result<Self, NoMemory> {
        copy_expr(alloc, self)
    }
}

#[cycle(expr_copy)]
fn copy_expr(alloc: Global, expr: &Expr) -> Result<Expr, NoMemory>
    ensures { IfOk result (λ copy. copy ≡ expr.now) }
{
    match expr {
        Expr::Const { value, ty } => Ok(Expr::Const {
            value: value.copy(alloc)?,
            ty: *ty,
        }),
        Expr::Column { index, ty } => Ok(Expr::Column {
            index: *index,
            ty: *ty,
        }),
        Expr::Call {
            func,
            mode,
            args,
            ty,
        } => Ok(Expr::Call {
            func: *func,
            mode: *mode,
            args: copy_exprs(alloc, args.as_slice())?,
            ty: *ty,
        }),
        Expr::If { arms, other, ty } => {
            let copies = copy_arms(alloc, arms.as_slice());
            let (arms, other) = zip(copies, copy_boxed(alloc, other))?;
            Ok(Expr::If {
                arms,
                other,
                ty: *ty,
            })
        }
        Expr::Switch {
            subject,
            arms,
            other,
            ty,
        } => {
            let copies = copy_choices(alloc, arms.as_slice());
            let exprs = zip(copy_boxed(alloc, subject), copy_boxed(alloc, other));
            let (arms, (subject, other)) = zip(copies, exprs)?;
            Ok(Expr::Switch {
                subject,
                arms,
                other,
                ty: *ty,
            })
        }
        Expr::OneOf { value, options, ty } => {
            let copies = copy_exprs(alloc, options.as_slice());
            let (value, options) = zip(copy_boxed(alloc, value), copies)?;
            Ok(Expr::OneOf {
                value,
                options,
                ty: *ty,
            })
        }
        Expr::Cast {
            input,
            null_on_fail,
            ty,
        } => Ok(Expr::Cast {
            input: copy_boxed(alloc, input)?,
            null_on_fail: *null_on_fail,
            ty: *ty,
        }),
    }
}

#[cycle(expr_copy)]
fn copy_boxed(alloc: Global, expr: &Boxed<Expr>) -> Result<Boxed<Expr>, NoMemory>
    ensures { IfOk result (λ copy. copy ≡ expr.now) }
{
    Boxed::new(alloc, copy_expr(alloc, expr.get())?)
}

#[cycle(expr_copy)]
fn copy_exprs(alloc: Global, exprs: &[Expr]) -> Result<Items<Expr>, NoMemory>
    ensures { IfOk result (λ copies. copies ≡ exprs.now) }
{
    let mut copies = Vec::with_capacity(alloc, exprs.len())?;
    for expr in exprs {
        copies.push(copy_expr(alloc, expr)?)?;
    }
    Ok(Items::from_vec(copies))
}

#[cycle(expr_copy)]
fn copy_arms(alloc: Global, arms: &[(Expr, Expr)]) -> Result<Items<(Expr, Expr)>, NoMemory>
    ensures { IfOk result (λ copies. copies ≡ arms.now) }
{
    let mut copies = Vec::with_capacity(alloc, arms.len())?;
    for arm in arms {
        copies.push(zip(copy_expr(alloc, &arm.0), copy_expr(alloc, &arm.1))?)?;
    }
    Ok(Items::from_vec(copies))
}

#[cycle(expr_copy)]
fn copy_choices(alloc: Global, choices: &[(Value, Expr)]) -> Result<Items<(Value, Expr)>, NoMemory>
    ensures { IfOk result (λ copies. copies ≡ choices.now) }
{
    let mut copies = Vec::with_capacity(alloc, choices.len())?;
    for choice in choices {
        copies.push(zip(choice.0.copy(alloc), copy_expr(alloc, &choice.1))?)?;
    }
    Ok(Items::from_vec(copies))
}
