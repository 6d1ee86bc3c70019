// The refusal of a plan.
ghost use Rattle.std.specs.Prelude.{◌≡◌};
ghost use Rattle.plan_verdict.specs.declared.rule.CheckError.TheVariants.{Refused};

use plan_verdict::{CheckError, Rule};

/// The relation with this number breaks the rule.
pub fn refuse<T>(relation: u32, rule: Rule) -> Result<T, CheckError>
    ensures { result ≡ Err (Refused relation rule) }
{
    Err(CheckError::Refused { relation, rule })
}
