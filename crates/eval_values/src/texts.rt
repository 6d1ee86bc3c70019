// The functions of texts.
ghost use Rattle.std.specs.Prelude.{◌≡◌, ◌∷◌, ◌<◌, ◌≤◌, ◌<ℤ◌, [], suc, pos, true, false, Ok, IfOk, MatchOption, length, map};
ghost use Rattle.std.specs.List.{concat, list_any};
ghost use Rattle.std.specs.Str.{is_utf8};
ghost use Rattle.eval_values.specs.Gives.{Gives};
ghost use Rattle.plan_denote.specs.Computed as computed;
ghost use Rattle.plan_denote.specs.Order as order_spec;
ghost use Rattle.plan_denote.specs.Texts as spec;
ghost use Rattle.sub_types.specs.Value as limits;
ghost use Rattle.sub_types.specs.declared.value.Value.TheVariants as values;

use crate::error::EvalError;
use crate::logic::is_null;
use crate::parts::{after_chars, count_chars, first_chars};
use std::alloc::Global;
use sub_types::{ByteList, FaultKind, NoMemory, Value};

/// The most bytes of a text.
const MOST_BYTES: usize = 1_048_576;

/// The text that bytes are, unless they aren't UTF-8.
pub(crate) fn text_of(bytes: &[u8]) -> Option<&str>
    ensures { MatchOption result (is_utf8 bytes.now ≡ false) (λ text. (text.now ≡ bytes.now) × (is_utf8 bytes.now ≡ true)) }
{
    match simdutf8::basic::from_utf8(bytes) {
        Ok(text) => Some(text),
        Err(_) => None,
    }
}

/// The bytes in a value, and none where it has none.
fn bytes_in(value: &Value) -> &[u8]
    ensures { result.now ≡ order_spec.bytes_in value.now }
{
    match value {
        Value::Bytes(bytes) => bytes.bytes(),
        _ => b"",
    }
}

/// The texts one after the other, if the whole isn't too long, and null where one is null.
pub(crate) fn concatenated(alloc: Global, texts: &[Value]) -> Result<Value, EvalError>
    ensures { Gives result (spec.concatenated texts.now) }
{
    if any_is_null(texts) {
        return Ok(Value::Null);
    }
    let Some(length) = joined_length(texts) else {
        return Err(EvalError::Fault(FaultKind::TextTooLong));
    };
    Ok(Value::Bytes(joined(alloc, texts, length)?))
}

fn any_is_null(values: &[Value]) -> bool
    ensures { result ≡ list_any computed.is_null values.now }
{
    values.iter().any(is_null)
}

/// How many bytes the texts have, unless they are too many.
fn joined_length(texts: &[Value]) -> Option<usize>
    ensures { MatchOption result (limits.MAX_TEXT < length (concat (map order_spec.bytes_in texts.now))) (λ n. (n ≡ length (concat (map order_spec.bytes_in texts.now))) × (n ≤ limits.MAX_TEXT)) }
{
    let mut length: usize = 0;
    for text in texts {
        let more = bytes_in(text).len();
        if more > MOST_BYTES - length {
            return None;
        }
        length += more;
    }
    Some(length)
}

/// The texts one after the other.
fn joined(alloc: Global, texts: &[Value], length: usize) -> Result<ByteList, NoMemory>
    ensures { IfOk result (λ bytes. bytes ≡ concat (map order_spec.bytes_in texts.now)) }
{
    let mut bytes = Vec::with_capacity(alloc, length)?;
    for text in texts {
        bytes.extend_from_slice(bytes_in(text))?;
    }
    Ok(ByteList::from_vec(bytes))
}

/// The characters of a text from a place on, counted from 1: so many, or all.
pub(crate) fn substring(alloc: Global, args: &[Value]) -> Result<Value, EvalError>
    ensures { Gives result (spec.substring args.now) }
{
    match args {
        [Value::Bytes(text), Value::Int(start)] => from_start(alloc, text.bytes(), *start),
        [Value::Bytes(text), Value::Int(start), Value::Int(count)] => {
            counted_from_start(alloc, text.bytes(), *start, *count)
        }
        _ => Ok(Value::Null),
    }
}

fn from_start(alloc: Global, text: &[u8], start: i64) -> Result<Value, EvalError>
    ensures { Gives result (spec.substring (values.Bytes text.now ∷ values.Int start ∷ [])) }
{
    let Some(text) = text_of(text) else {
        return Ok(Value::Null);
    };
    let Some(before) = chars_before(start) else {
        return Err(EvalError::Fault(FaultKind::BadStart));
    };
    copied(alloc, after_chars(text, before).as_bytes())
}

fn counted_from_start(
    alloc: Global,
    text: &[u8],
    start: i64,
    count: i64,
) -> Result<Value, EvalError>
    ensures { Gives result (spec.substring (values.Bytes text.now ∷ values.Int start ∷ values.Int count ∷ [])) }
{
    let Some(text) = text_of(text) else {
        return Ok(Value::Null);
    };
    let Some(before) = chars_before(start) else {
        return Err(EvalError::Fault(FaultKind::BadStart));
    };
    let Some(count) = count_of(count) else {
        return Err(EvalError::Fault(FaultKind::BadStart));
    };
    let rest = after_chars(text, before);
    copied(alloc, first_chars(rest, count))
}

/// How many characters stand before a place, counted from 1, if there is such a place.
fn chars_before(start: i64) -> Option<u64>
    ensures { MatchOption result (start <ℤ pos 1) (λ before. start ≡ pos (suc before)) }
{
    if start < 1 {
        None
    } else {
        Some((start - 1) as u64)
    }
}

/// A number of characters, if it isn't below 0.
fn count_of(number: i64) -> Option<u64>
    ensures { MatchOption result (number <ℤ pos 0) (λ count. number ≡ pos count) }
{
    if number < 0 {
        None
    } else {
        Some(number as u64)
    }
}

fn copied(alloc: Global, bytes: &[u8]) -> Result<Value, EvalError>
    ensures { Gives result (Ok (values.Bytes bytes.now)) }
{
    Ok(Value::Bytes(ByteList::of(alloc, bytes)?))
}

/// How many characters a text has.
pub(crate) fn char_length(value: &Value) -> Result<Value, FaultKind>
    ensures { result ≡ spec.char_length value.now }
{
    match value {
        Value::Bytes(bytes) => match text_of(bytes.bytes()) {
            Some(text) => Ok(Value::Int(count_chars(text) as i64)),
            None => Ok(Value::Null),
        },
        _ => Ok(Value::Null),
    }
}

/// How many bytes a text has.
pub(crate) fn octet_length(value: &Value) -> Result<Value, FaultKind>
    ensures { result ≡ spec.octet_length value.now }
{
    match value {
        Value::Bytes(bytes) => match text_of(bytes.bytes()) {
            Some(text) => Ok(Value::Int(text.len() as i64)),
            None => Ok(Value::Null),
        },
        _ => Ok(Value::Null),
    }
}
