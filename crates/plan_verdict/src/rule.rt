// Why a plan is refused.
use sub_types::NoMemory;

/// The rule that a plan breaks.
#[derive(Clone, Copy, Debug, PartialEq, Eq, Hash)]
pub enum Rule {
    UnknownRelation { number: u32 },
    UnsupportedForm,
    MissingField,
    UnknownFunction,
    BadArguments,
    TypeMismatch,
    BadReference,
    BadMapping,
    UnsupportedType,
    UnsupportedOption,
    BadLiteral,
    BadNames,
    TooMany,
}

/// Why a plan isn't accepted: the relation with this number breaks a rule, or no memory was found.
#[derive(Clone, Copy, Debug, PartialEq, Eq, Hash)]
pub enum CheckError {
    Refused { relation: u32, rule: Rule },
    NoMemory,
}

impl From<NoMemory> for CheckError {
    ghost use Rattle.std.specs.Prelude.{◌≡◌};
    ghost use Rattle.plan_verdict.specs.declared.rule.CheckError.TheVariants.{NoMemory as without_memory};

    ghost from_gives = { λ _ error. error ≡ without_memory };

    fn from(_: NoMemory) -> CheckError {
        CheckError::NoMemory
    }
}
