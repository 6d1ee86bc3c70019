// Calls of functions: the row of the table, the mode of overflow, and the type of the result.
ghost use Rattle.std.specs.Prelude.{◌≡◌, map, IfOk};
ghost use Rattle.std.specs.List.{list_any};
ghost use Rattle.func_table.specs.Find.{IsRow};
ghost use Rattle.func_table.specs.Seen.{seen};
ghost use Rattle.plan_verdict.specs.Calls as spec;
ghost use Rattle.plan_verdict.specs.Checking.{Agrees};
ghost use Rattle.plan_rules.specs.Index.{named_seen, result_seen};

use crate::declared::Named;
use crate::options::mode_in;
use crate::refusal::refuse;
use crate::results::{is_nullable_call, result_in};
use func_table::{Class, Row, find_bytes, is_key_of_kinds};
use plan_leaves::{FunctionOption, RawType};
use plan_typed::Func;
use plan_verdict::{Call, CheckError, Rule};
use std::alloc::Global;
use sub_types::{Kind, NoMemory, Ty};

/// The call of a named function with arguments of these types, or its refusal: its row, then its options, then its
/// result. It stands in the relation with this number.
pub fn call_in(
    alloc: Global,
    relation: u32,
    named: &Named<'_>,
    class: Class,
    types: &[Ty],
    output: &Option<RawType>,
    options: &[FunctionOption],
) -> Result<Call, CheckError>
    ensures { Agrees result relation (spec.call_in (named_seen named.now) class types.now output.now options.now) }
{
    let kinds = kinds_of(alloc, types)?;
    let row = row_in(relation, named, class, &kinds)?;
    let mode = mode_in(relation, &row, options)?;
    let kind = result_in(relation, &row, &kinds, output)?;
    Ok(Call {
        func: row.func,
        mode,
        ty: Ty {
            kind,
            nullable: is_nullable_call(row.func, types),
        },
    })
}

fn kinds_of(alloc: Global, types: &[Ty]) -> Result<Vec<Kind>, NoMemory>
    ensures { IfOk result (λ kinds. kinds.items ≡ map (λ ty. ty.kind) types.now) }
{
    let kinds = types.iter().map(|ty| ty.kind).collect(alloc)?;
    Ok(kinds)
}

/// The row of the table that takes the call.
fn row_in(relation: u32, named: &Named<'_>, class: Class, given: &[Kind]) -> Result<Row, CheckError>
    ensures row { Agrees (result_seen seen result) relation (spec.row_in (named_seen named.now) class given.now) }
    ensures of_table { IfOk result (λ row. IsRow (seen row)) }
{
    let Some(row) = find_bytes(named.file, named.name, given, class) else {
        return refuse(relation, Rule::BadArguments);
    };
    if !is_key_of(named, given, &row) {
        return refuse(relation, Rule::BadArguments);
    }
    Ok(row)
}

/// Whether the declared name has no colon, or is a key of the row.
fn is_key_of(named: &Named<'_>, given: &[Kind], row: &Row) -> bool
    ensures { result ≡ spec.is_key_of (named_seen named.now) given.now (seen row.now) }
{
    let declared = named.declared;
    !has_colon(declared)
        || declared == row.key.as_bytes()
        || is_key_of_kinds(declared, named.name, given)
        || is_key_of_count(row.func, declared)
}

fn has_colon(bytes: &[u8]) -> bool
    ensures { result ≡ list_any spec.is_colon bytes.now }
{
    bytes.iter().any(|byte| *byte == b':')
}

/// Whether this is a key of `count`, which takes any argument or none.
fn is_key_of_count(func: Func, declared: &[u8]) -> bool
    ensures { result ≡ spec.is_key_of_count func declared.now }
{
    match func {
        Func::Count => declared == "count:".as_bytes() || declared == "count:any".as_bytes(),
        _ => false,
    }
}
