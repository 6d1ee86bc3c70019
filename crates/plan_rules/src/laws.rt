// What holds of the test of equal expressions.
ghost use Rattle.std.specs.Prelude.{◌≡◌, ◌↔◌, IsTrue};
ghost use Rattle.plan_typed.specs.declared.expr.Expr.{Expr};
ghost use Rattle.plan_verdict.specs.Same.{same_expr};

/// The test of equal expressions tells whether two expressions are equal.
pub fn equal_exprs_are_equal()
    ensures { (a b : Expr) → IsTrue (same_expr a b) ↔ (a ≡ b) }
{}
