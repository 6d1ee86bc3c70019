// The smallest steps of a check.
ghost use Rattle.std.specs.Prelude.{◌≡◌, Err};
ghost use Rattle.plan_verdict.specs.declared.rule.CheckError.TheVariants.{Refused};
ghost use Rattle.std.specs.Prelude.{ℕ, Result};
ghost use Rattle.plan_verdict.specs.declared.rule.Rule.{Rule as Broken};
ghost use Rattle.plan_verdict.specs.Checking as checking;
ghost use Rattle.plan_verdict.specs.Checking.{Agrees, Comes};
ghost use Rattle.plan_verdict.specs.Exprs as exprs;

use plan_typed::Expr;
use plan_verdict::{CheckError, Progress, Rule};
use sub_types::{Kind, Ty, Value};

/// The relation breaks the rule.
pub fn refuse<T>(relation: u32, rule: Rule) -> Result<T, CheckError>
    ensures { result ≡ Err (Refused relation rule) }
{
    Err(CheckError::Refused { relation, rule })
}

/// What is found of a part that holds no relation and no expression, with how far the check comes.
pub fn part<T: Drop>(
    found: Result<T, CheckError>,
    progress: Progress,
) -> Result<(T, Progress), CheckError>
    ensures { (relation : ℕ) (expected : Result T Broken) → Agrees found relation expected → Comes result (checking.part relation expected progress) }
{
    let found = found?;
    Ok((found, progress))
}

/// The kind of a checked expression.
pub fn kind_of(expr: &Expr) -> Kind
    ensures { result ≡ exprs.kind_of expr.now }
{
    expr.ty().kind
}

/// Null of a kind.
pub(crate) fn null_of(kind: Kind) -> Expr
    ensures { result ≡ exprs.null_of kind }
{
    Expr::Const {
        value: Value::Null,
        ty: Ty {
            kind,
            nullable: true,
        },
    }
}
