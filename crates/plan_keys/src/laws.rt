// What holds of keys.
ghost use Rattle.std.specs.Prelude.{◌≡◌};
ghost use Rattle.plan_typed.specs.declared.expr.Expr.{Expr};
ghost use Rattle.plan_keys.specs.Keys.{expr_key};

/// Expressions of one key are equal.
pub fn equal_keys_are_of_equal_exprs()
    ensures { (a b : Expr) → expr_key a ≡ expr_key b → a ≡ b }
{}
