// When two checked expressions are equal: the same functions, modes, places, values and types.
ghost use Rattle.std.specs.Prelude.{◌≡◌, ◌&&◌, ◌==◌};
ghost use Rattle.std.specs.Cmp.Lexicographic.{pointwise};
ghost use Rattle.std.specs.Str.{bytes_eq};
ghost use Rattle.plan_verdict.specs.Same as spec;

use plan_typed::{Expr, Func, Overflow};
use sub_types::{ByteList, Ty, Value};

/// Whether two expressions are equal.
#[cycle(same)]
pub fn is_same(a: &Expr, b: &Expr) -> bool
    ensures { result ≡ spec.same_expr a.now b.now }
{
    match (a, b) {
        (
            Expr::Const { value, ty },
            Expr::Const {
                value: other,
                ty: other_ty,
            },
        ) => is_same_value(value, other) && is_same_ty(*ty, *other_ty),
        (
            Expr::Column { index, ty },
            Expr::Column {
                index: other,
                ty: other_ty,
            },
        ) => index == other && is_same_ty(*ty, *other_ty),
        (
            Expr::Call {
                func,
                mode,
                args,
                ty,
            },
            Expr::Call {
                func: other,
                mode: other_mode,
                args: others,
                ty: other_ty,
            },
        ) => {
            is_same_func(*func, *other)
                && is_same_mode(*mode, *other_mode)
                && are_same(args.as_slice(), others.as_slice())
                && is_same_ty(*ty, *other_ty)
        }
        (
            Expr::If { arms, other, ty },
            Expr::If {
                arms: other_arms,
                other: otherwise,
                ty: other_ty,
            },
        ) => {
            are_same_arms(arms.as_slice(), other_arms.as_slice())
                && is_same(other.get(), otherwise.get())
                && is_same_ty(*ty, *other_ty)
        }
        (
            Expr::Switch {
                subject,
                arms,
                other,
                ty,
            },
            Expr::Switch {
                subject: other_subject,
                arms: other_arms,
                other: otherwise,
                ty: other_ty,
            },
        ) => {
            is_same(subject.get(), other_subject.get())
                && are_same_choices(arms.as_slice(), other_arms.as_slice())
                && is_same(other.get(), otherwise.get())
                && is_same_ty(*ty, *other_ty)
        }
        (
            Expr::OneOf { value, options, ty },
            Expr::OneOf {
                value: other,
                options: others,
                ty: other_ty,
            },
        ) => {
            is_same(value.get(), other.get())
                && are_same(options.as_slice(), others.as_slice())
                && is_same_ty(*ty, *other_ty)
        }
        (
            Expr::Cast {
                input,
                null_on_fail,
                ty,
            },
            Expr::Cast {
                input: other,
                null_on_fail: other_null,
                ty: other_ty,
            },
        ) => {
            is_same(input.get(), other.get())
                && null_on_fail == other_null
                && is_same_ty(*ty, *other_ty)
        }
        _ => false,
    }
}

#[cycle(same)]
fn are_same(a: &[Expr], b: &[Expr]) -> bool
    ensures { result ≡ pointwise spec.same_expr a.now b.now }
{
    if a.len() != b.len() {
        return false;
    }
    for (i, x) in a.iter().enumerate() {
        if !is_same(x, &b[i]) {
            return false;
        }
    }
    true
}

#[cycle(same)]
fn are_same_arms(a: &[(Expr, Expr)], b: &[(Expr, Expr)]) -> bool
    ensures { result ≡ pointwise (λ arm other. spec.same_expr arm.0 other.0 && spec.same_expr arm.1 other.1) a.now b.now }
{
    if a.len() != b.len() {
        return false;
    }
    for (i, x) in a.iter().enumerate() {
        let y = &b[i];
        if !(is_same(&x.0, &y.0) && is_same(&x.1, &y.1)) {
            return false;
        }
    }
    true
}

#[cycle(same)]
fn are_same_choices(a: &[(Value, Expr)], b: &[(Value, Expr)]) -> bool
    ensures { result ≡ pointwise (λ choice other. spec.same_value choice.0 other.0 && spec.same_expr choice.1 other.1) a.now b.now }
{
    if a.len() != b.len() {
        return false;
    }
    for (i, x) in a.iter().enumerate() {
        let y = &b[i];
        if !(is_same_value(&x.0, &y.0) && is_same(&x.1, &y.1)) {
            return false;
        }
    }
    true
}

fn is_same_value(a: &Value, b: &Value) -> bool
    ensures { result ≡ spec.same_value a.now b.now }
{
    match (a, b) {
        (Value::Null, Value::Null) => true,
        (Value::Bool(a), Value::Bool(b)) => a == b,
        (Value::Int(a), Value::Int(b)) => a == b,
        (Value::Dec(a), Value::Dec(b)) => a == b,
        (Value::Bytes(a), Value::Bytes(b)) => are_same_bytes(a, b),
        _ => false,
    }
}

fn are_same_bytes(a: &ByteList, b: &ByteList) -> bool
    ensures { result ≡ bytes_eq a.now b.now }
{
    a.bytes() == b.bytes()
}

fn is_same_ty(a: Ty, b: Ty) -> bool
    ensures { result ≡ spec.same_ty a b }
{
    a.kind == b.kind && a.nullable == b.nullable
}

fn is_same_func(a: Func, b: Func) -> bool
    ensures { result ≡ (spec.func_number a == spec.func_number b) }
{
    a == b
}

fn is_same_mode(a: Overflow, b: Overflow) -> bool
    ensures { result ≡ (spec.mode_number a == spec.mode_number b) }
{
    a == b
}
