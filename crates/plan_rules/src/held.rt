// Values that are held while the next step may be refused. They are let go here, for any type, and not in each check.
ghost use Rattle.std.specs.Prelude.{◌≡◌, IfErr, IfOk, Err, Ok, true, false};
ghost use Rattle.plan_verdict.specs.declared.rule.CheckError.TheVariants.{Refused};

use plan_verdict::{CheckError, Rule};

/// The value and what is found, or the error.
pub fn beside<T: Drop, A: Drop, E: Drop>(value: T, found: Result<A, E>) -> Result<(T, A), E>
    ensures value { IfOk result (λ both. both.0 ≡ value) }
    ensures found { IfOk result (λ both. found ≡ Ok both.1) }
    ensures error { IfErr result (λ error. found ≡ Err error) }
{
    match found {
        Ok(found) => Ok((value, found)),
        Err(error) => Err(error),
    }
}

/// The value, where the test holds. Else the relation breaks the rule.
pub fn must<T: Drop>(relation: u32, test: bool, rule: Rule, value: T) -> Result<T, CheckError>
    ensures holds { IfOk result (λ kept. test ≡ true) }
    ensures value { IfOk result (λ kept. kept ≡ value) }
    ensures fails { IfErr result (λ error. test ≡ false) }
    ensures breaks { IfErr result (λ error. error ≡ Refused relation rule) }
{
    if test {
        Ok(value)
    } else {
        Err(CheckError::Refused { relation, rule })
    }
}
