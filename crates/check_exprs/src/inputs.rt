// The input of a relation.
ghost use Rattle.std.specs.Option.{option_map};
ghost use Rattle.plan_verdict.specs.Checking.{Comes};
ghost use Rattle.plan_verdict.specs.Relation as spec;
ghost use Rattle.plan_verdict.specs.Verdict.{checked_rel};

use crate::deeper::Deeper;
use crate::steps::refuse;
use crate::terms::Terms;
use plan_leaves::Boxed;
use plan_raw::RawRel;
use plan_typed::Rel;
use plan_verdict::{CheckError, Progress, Rule};

/// An input that must be there.
pub fn input<D: Deeper>(
    deeper: &D,
    terms: &Terms<'_>,
    progress: Progress,
    number: u32,
    written: &Option<Boxed<RawRel>>,
) -> Result<(Rel, Progress), CheckError>
    requires { D.is_ready deeper.now }
    ensures { Comes result (spec.input number (option_map (checked_rel terms.now) written.now) progress) }
{
    match written {
        None => refuse(number, Rule::MissingField),
        Some(rel) => deeper.relation(terms, progress, rel.get()),
    }
}
