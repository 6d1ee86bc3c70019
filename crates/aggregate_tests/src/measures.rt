// Measures of numbers, and of rows.
ghost use Rattle.well_typed.specs.WellTyped.{IsMeasureOver, IsSetMeasureOver, IsConditionOver, MayBe};
ghost use Rattle.aggregate_tests.specs.Typed.{IsTyped, numbers};

use crate::rows::NUMBER;
use plan_typed::{Expr, Func, SetMeasure, TypedMeasure};

pub(crate) fn sum(arg: Expr, filter: Option<Expr>) -> TypedMeasure
    requires arg { IsTyped NUMBER arg }
    requires filter { MayBe (IsConditionOver numbers) filter }
    ensures { IsMeasureOver numbers result }
{
    TypedMeasure {
        func: Func::Sum,
        arg: Some(arg),
        filter,
        ty: NUMBER,
    }
}

pub(crate) fn least(arg: Expr, filter: Option<Expr>) -> TypedMeasure
    requires arg { IsTyped NUMBER arg }
    requires filter { MayBe (IsConditionOver numbers) filter }
    ensures { IsMeasureOver numbers result }
{
    TypedMeasure {
        func: Func::Min,
        arg: Some(arg),
        filter,
        ty: NUMBER,
    }
}

pub(crate) fn greatest(arg: Expr, filter: Option<Expr>) -> TypedMeasure
    requires arg { IsTyped NUMBER arg }
    requires filter { MayBe (IsConditionOver numbers) filter }
    ensures { IsMeasureOver numbers result }
{
    TypedMeasure {
        func: Func::Max,
        arg: Some(arg),
        filter,
        ty: NUMBER,
    }
}

pub(crate) fn count(arg: Expr, filter: Option<Expr>) -> TypedMeasure
    requires arg { IsTyped NUMBER arg }
    requires filter { MayBe (IsConditionOver numbers) filter }
    ensures { IsMeasureOver numbers result }
{
    TypedMeasure {
        func: Func::Count,
        arg: Some(arg),
        filter,
        ty: NUMBER,
    }
}

/// How many rows there are.
pub(crate) fn rows(filter: Option<Expr>) -> TypedMeasure
    requires { MayBe (IsConditionOver numbers) filter }
    ensures { IsMeasureOver numbers result }
{
    TypedMeasure {
        func: Func::Count,
        arg: None,
        filter,
        ty: NUMBER,
    }
}

/// A measure over distinct values, where that is asked and it has an argument, and else over all.
pub(crate) fn over(measure: TypedMeasure, distinct: bool) -> SetMeasure
    requires { IsMeasureOver numbers measure }
    ensures { IsSetMeasureOver numbers result }
{
    let distinct = measure.arg.is_some() && distinct;
    SetMeasure { measure, distinct }
}
