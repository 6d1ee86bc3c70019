// The options of the functions.
ghost use Rattle.std.specs.Prelude.{◌≡◌, map};
ghost use Rattle.std.specs.Option.{option_map};
ghost use Rattle.func_table.specs.Find.{IsRow};
ghost use Rattle.func_table.specs.Options as spec;
ghost use Rattle.func_table.specs.Seen.{seen, choice_seen};

use crate::row::Row;
use crate::text::is_text;
use plan_typed::Func;

/// An option, and the values of it that are honoured.
struct Choice {
    option: &'static str,
    values: &'static [&'static str],
}

macro_rules! choice {
    ($option:literal: $($value:literal)|+) => {
        Choice {
            option: $option,
            values: &[$($value),+],
        }
    };
}

const OVERFLOW_MODES: Choice = choice!("overflow": "ERROR" | "SATURATE" | "SILENT");

const OVERFLOW_FAULT: Choice = choice!("overflow": "ERROR");

const ON_DIVISION_BY_ZERO: Choice = choice!("on_division_by_zero": "ERROR");

const ON_DOMAIN_ERROR: Choice = choice!("on_domain_error": "ERROR");

const DIVISION_TYPE: Choice = choice!("division_type": "TRUNCATE");

const NULL_HANDLING: Choice = choice!("null_handling": "ACCEPT_NULLS");

const NEGATIVE_START: Choice = choice!("negative_start": "ERROR");

const CASE_SENSITIVITY: Choice = choice!("case_sensitivity": "CASE_SENSITIVE");

/// Whether a row honours a value of an option; none where the row has no option of that name. Names and values are
/// compared by bytes.
pub fn honours(row: &Row, option: &str, preference: &str) -> Option<bool>
    requires { IsRow (seen row.now) }
    ensures { result ≡ spec.honoured (seen row.now) option.now preference.now }
{
    honours_bytes(row, option.as_bytes(), preference.as_bytes())
}

/// The same of an option and a value in bytes.
pub fn honours_bytes(row: &Row, option: &[u8], preference: &[u8]) -> Option<bool>
    requires { IsRow (seen row.now) }
    ensures { result ≡ spec.honoured (seen row.now) option.now preference.now }
{
    let choice = choice_of(row, option)?;
    Some(choice.is_honoured(preference))
}

impl Choice {
    fn is_honoured(&self, value: &[u8]) -> bool
        ensures { result ≡ spec.is_honoured value.now (choice_seen self.now) }
    {
        self.values.iter().any(|one| is_text(one, value))
    }
}

fn choice_of(row: &Row, name: &[u8]) -> Option<&'static Choice>
    ensures { option_map (λ choice. choice_seen choice.now) result ≡ spec.choice_of (seen row.now) name.now }
{
    options_of(row)
        .iter()
        .find(|choice| is_text(choice.option, name))
}

fn options_of(row: &Row) -> &'static [Choice]
    ensures { map choice_seen result.now ≡ spec.options_of (seen row.now) }
{
    options_at(row.key.ends_with("dec"), row.func)
}

/// The options of the rows of decimals, or of the others of a function.
fn options_at(of_decimals: bool, func: Func) -> &'static [Choice]
    ensures { map choice_seen result.now ≡ spec.options_at of_decimals func }
{
    if of_decimals {
        return &[OVERFLOW_FAULT];
    }
    match func {
        Func::Add | Func::Subtract | Func::Multiply | Func::Negate | Func::Abs => &[OVERFLOW_MODES],
        Func::Divide => &[OVERFLOW_MODES, ON_DIVISION_BY_ZERO, ON_DOMAIN_ERROR],
        Func::Modulus => &[
            OVERFLOW_MODES,
            ON_DIVISION_BY_ZERO,
            ON_DOMAIN_ERROR,
            DIVISION_TYPE,
        ],
        Func::Sum => &[OVERFLOW_FAULT],
        Func::Concat => &[NULL_HANDLING],
        Func::Substring => &[NEGATIVE_START],
        Func::StartsWith | Func::EndsWith | Func::Contains | Func::Like => &[CASE_SENSITIVITY],
        _ => &[],
    }
}
