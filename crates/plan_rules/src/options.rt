// Options of calls (Substrait `FunctionOption`): the mode of overflow that they ask for.
ghost use Rattle.std.specs.Prelude.{◌≡◌};
ghost use Rattle.std.specs.List.{find};
ghost use Rattle.std.specs.Option.{option_map};
ghost use Rattle.func_table.specs.Find.{IsRow};
ghost use Rattle.func_table.specs.Seen.{seen};
ghost use Rattle.plan_verdict.specs.Calls as spec;
ghost use Rattle.plan_verdict.specs.Checking.{Agrees};
ghost use Rattle.plan_rules.specs.Index.{result_seen};

use crate::refusal::refuse;
use func_table::{Row, honours_bytes};
use plan_leaves::FunctionOption;
use plan_typed::Overflow;
use plan_verdict::{CheckError, Rule};
use sub_types::ByteList;

/// The mode of a call with these options, in order, or the refusal of one of them: each has a name of the row's and a
/// value that is honoured, and the last of a name counts.
pub(crate) fn mode_in(
    relation: u32,
    row: &Row,
    options: &[FunctionOption],
) -> Result<Overflow, CheckError>
    requires { IsRow (seen row.now) }
    ensures { Agrees result relation (spec.mode_in (seen row.now) options.now) }
{
    let mut mode = Overflow::Error;
    for option in options {
        mode = mode_with(relation, mode, row, option)?;
    }
    Ok(mode)
}

/// The mode after one more option.
fn mode_with(
    relation: u32,
    mode: Overflow,
    row: &Row,
    option: &FunctionOption,
) -> Result<Overflow, CheckError>
    requires { IsRow (seen row.now) }
    ensures { Agrees result relation (spec.mode_with mode (seen row.now) option.now) }
{
    let name = option.name.bytes();
    if !has_option(row, name) {
        return refuse(relation, Rule::UnsupportedOption);
    }
    let value = preferred(relation, row, option)?;
    Ok(mode_after(mode, name, value))
}

fn has_option(row: &Row, name: &[u8]) -> bool
    requires { IsRow (seen row.now) }
    ensures { result ≡ spec.has_option (seen row.now) name.now }
{
    honours_bytes(row, name, b"").is_some()
}

/// The value of an option: the first preference that is honoured, or none where there are no preferences.
fn preferred<'a>(
    relation: u32,
    row: &Row,
    option: &'a FunctionOption,
) -> Result<Option<&'a [u8]>, CheckError>
    requires { IsRow (seen row.now) }
    ensures { Agrees (result_seen (option_map (λ value. value.now)) result) relation (spec.preferred (seen row.now) option.now) }
{
    let preference = option.preference.as_slice();
    if preference.is_empty() {
        return Ok(None);
    }
    match first_preferred(row, option.name.bytes(), preference) {
        Some(value) => Ok(Some(value)),
        None => refuse(relation, Rule::UnsupportedOption),
    }
}

fn first_preferred<'a>(row: &Row, name: &[u8], preference: &'a [ByteList]) -> Option<&'a [u8]>
    requires { IsRow (seen row.now) }
    ensures { option_map (λ value. value.now) result ≡ find (spec.is_preferred (seen row.now) name.now) preference.now }
{
    for value in preference {
        if is_preferred(row, name, value.bytes()) {
            return Some(value.bytes());
        }
    }
    None
}

fn is_preferred(row: &Row, name: &[u8], value: &[u8]) -> bool
    requires { IsRow (seen row.now) }
    ensures { result ≡ spec.is_preferred (seen row.now) name.now value.now }
{
    match honours_bytes(row, name, value) {
        Some(is_honoured) => is_honoured,
        None => false,
    }
}

/// The mode after an option of this name and value; only `overflow` changes it.
fn mode_after(mode: Overflow, name: &[u8], value: Option<&[u8]>) -> Overflow
    ensures { result ≡ spec.mode_after mode name.now (option_map (λ value. value.now) value.entry) }
{
    if name == "overflow".as_bytes() {
        mode_of(value)
    } else {
        mode
    }
}

/// The mode that a value of `overflow` names.
fn mode_of(value: Option<&[u8]>) -> Overflow
    ensures { result ≡ spec.mode_of (option_map (λ value. value.now) value.entry) }
{
    match value {
        None => Overflow::Error,
        Some(value) => {
            if value == "SATURATE".as_bytes() {
                Overflow::Saturate
            } else if value == "SILENT".as_bytes() {
                Overflow::Silent
            } else {
                Overflow::Error
            }
        }
    }
}
