//! The law of types of expressions: what a well-typed expression is worth at a row that fits its columns fits its type. It stands
//! on `well_typed` and `plan_denote`, whose definitions it ties together, and has no definition of its own.
#![tactic(auto)]

ghost use Rattle.std.specs.Prelude.{List, IfOk, map};
ghost use Rattle.std.specs.List.{AllByRecursion};
ghost use Rattle.sub_types.specs.Value.{Fits, FitsTy};
ghost use Rattle.sub_types.specs.declared.kind.Ty.{Ty};
ghost use Rattle.sub_types.specs.declared.value.Value.{Value};
ghost use Rattle.plan_typed.specs.Types.{ty_of};
ghost use Rattle.plan_typed.specs.declared.expr.Expr.{Expr};
ghost use Rattle.well_typed.specs.ExprTyped.{IsTypedOver};
ghost use Rattle.plan_denote.specs.Computed.{collect};
ghost use Rattle.plan_denote.specs.Eval.{eval};

/// What a well-typed expression is worth at a row that fits its columns is a fault, or a value that fits its type.
pub fn value_fits_its_type()
    ensures { (columns : List Ty) (expr : Expr) → IsTypedOver columns expr → (row : List Value) → Fits columns row → IfOk (eval expr row) (λ value. FitsTy (ty_of expr) value) }
{}

/// What well-typed expressions are worth at such a row is the first fault, or a row of values that fits their types.
pub fn values_fit_their_types()
    ensures { (columns : List Ty) (exprs : List Expr) → AllByRecursion (IsTypedOver columns) exprs → (row : List Value) → Fits columns row → IfOk (collect (map (λ expr. eval expr row) exprs)) (λ values. Fits (map ty_of exprs) values) }
{}
