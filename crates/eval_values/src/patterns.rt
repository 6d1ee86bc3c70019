// Whether a text begins with another, ends with it, contains it or is like it.
ghost use Rattle.std.specs.Prelude.{◌≡◌, ℕ, List, Bool};
ghost use Rattle.std.specs.Option.{option_map_or};
ghost use Rattle.plan_denote.specs.Computed as computed;
ghost use Rattle.plan_denote.specs.Texts as spec;
ghost use Rattle.sub_types.specs.declared.value.Value.TheVariants as values;

use crate::logic::truth;
use crate::texts::text_of;
use sub_types::{FaultKind, Value};

/// Two texts, unless one isn't a text.
fn both_texts<'a>(a: &'a Value, b: &'a Value) -> Option<(&'a str, &'a str)>
    ensures { (test : List ℕ → List ℕ → Bool) → spec.tested test a.now b.now ≡ option_map_or (λ both. computed.truth (test both.0.now both.1.now)) result computed.null }
{
    match (a, b) {
        (Value::Bytes(a), Value::Bytes(b)) => both_utf8(a.bytes(), b.bytes()),
        _ => None,
    }
}

fn both_utf8<'a>(a: &'a [u8], b: &'a [u8]) -> Option<(&'a str, &'a str)>
    ensures { (test : List ℕ → List ℕ → Bool) → spec.tested test (values.Bytes a.now) (values.Bytes b.now) ≡ option_map_or (λ both. computed.truth (test both.0.now both.1.now)) result computed.null }
{
    let Some(a) = text_of(a) else {
        return None;
    };
    let Some(b) = text_of(b) else {
        return None;
    };
    Some((a, b))
}

pub(crate) fn starts_with(text: &Value, pattern: &Value) -> Result<Value, FaultKind>
    ensures { result ≡ spec.tested spec.begins text.now pattern.now }
{
    match both_texts(text, pattern) {
        Some((text, pattern)) => truth(text_match::starts_with(
            text.as_bytes(),
            pattern.as_bytes(),
        )),
        None => Ok(Value::Null),
    }
}

pub(crate) fn ends_with(text: &Value, pattern: &Value) -> Result<Value, FaultKind>
    ensures { result ≡ spec.tested spec.ends text.now pattern.now }
{
    match both_texts(text, pattern) {
        Some((text, pattern)) => truth(text_match::ends_with(text.as_bytes(), pattern.as_bytes())),
        None => Ok(Value::Null),
    }
}

pub(crate) fn contains(text: &Value, pattern: &Value) -> Result<Value, FaultKind>
    ensures { result ≡ spec.tested spec.contains text.now pattern.now }
{
    match both_texts(text, pattern) {
        Some((text, pattern)) => truth(text_match::contains(text.as_bytes(), pattern.as_bytes())),
        None => Ok(Value::Null),
    }
}

pub(crate) fn like(text: &Value, pattern: &Value) -> Result<Value, FaultKind>
    ensures { result ≡ spec.tested spec.like text.now pattern.now }
{
    match both_texts(text, pattern) {
        Some((text, pattern)) => truth(text_match::like(text.as_bytes(), pattern.as_bytes())),
        None => Ok(Value::Null),
    }
}
