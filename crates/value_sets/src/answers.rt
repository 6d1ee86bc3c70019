// What is said of a value by a set of options.
ghost use Rattle.std.specs.Prelude.{◌≡◌, ◌<◌, ◌∷◌, List, Ok, map, true, false, if◌then◌else◌, option_copied};
ghost use Rattle.sub_types.specs.Nullable.{bool_value, bytes_value, int_value};
ghost use Rattle.sub_types.specs.declared.value.Value.TheVariants as values;
ghost use Rattle.sub_types.specs.declared.value.Value.{Value};
ghost use Rattle.plan_typed.specs.declared.expr.Expr.{Expr};
ghost use Rattle.plan_denote.specs.Computed.{Row};
ghost use Rattle.plan_denote.specs.Eval.{eval};
ghost use Rattle.plan_denote.specs.Logic.{one_of};
ghost use Rattle.value_sets.specs.Sets.{has, answer_by, IsSetOf};
ghost use Rattle.value_sets.specs.declared.set.ValueSet.{ValueSet};

use crate::ValueSet;
use sub_types::Value;

/// Whether a value is one of the options in the set: null where the value is null, and where it isn't there and null is.
pub fn answer(set: &ValueSet, value: &Value) -> Value
    ensures { result ≡ answer_by (has set.now) value.now }
{
    match value {
        Value::Null => Value::Null,
        _ if set.contains(value) => Value::Bool(true),
        _ if set.contains(&Value::Null) => Value::Null,
        _ => Value::Bool(false),
    }
}

/// The same of an integer.
pub fn answer_int(set: &ValueSet, number: Option<i64>) -> Option<bool>
    ensures { bool_value result ≡ answer_by (has set.now) (int_value number) }
{
    match number {
        None => None,
        Some(number) => answer_where(set, set.contains_int(number)),
    }
}

/// The same of the bytes of a text or a binary, which aren't copied.
pub fn answer_bytes(set: &ValueSet, bytes: Option<&[u8]>) -> Option<bool>
    ensures { bool_value result ≡ answer_by (has set.now) (bytes_value (option_copied bytes.entry)) }
{
    match bytes {
        None => None,
        Some(bytes) => answer_where(set, set.contains_bytes(bytes)),
    }
}

/// What is said of a value that isn't null, by whether it is there.
fn answer_where(set: &ValueSet, is_there: bool) -> Option<bool>
    ensures { bool_value result ≡ if is_there then values.Bool true else if has set.now values.Null then values.Null else values.Bool false }
{
    if is_there {
        Some(true)
    } else if set.contains_null() {
        None
    } else {
        Some(false)
    }
}

/// A value is one of constants, of which there is one at least, as the set of them says.
pub fn answers_are_denoted()
    ensures { (set : ValueSet) (first : Expr) (rest : List Expr) → IsSetOf set (first ∷ rest) → (value : Value) (row : Row) → one_of value (map (λ option. eval option row) (first ∷ rest)) ≡ Ok (answer_by (has set) value) }
{}
