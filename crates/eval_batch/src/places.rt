//! Places of values among the literals of a `switch`.
ghost use Rattle.std.specs.Prelude.{◌≡◌, ◌&&◌, ◌∷◌, [], map, not, IfOk, IfSome};
ghost use Rattle.sub_types.specs.declared.value.Value.TheVariants as worth;
ghost use Rattle.plan_denote.specs.Computed.{is_null};
ghost use Rattle.plan_denote.specs.Order.{is_same};
ghost use Rattle.batch_nodes.specs.Found.{found_values};
ghost use Rattle.batch_nodes.specs.Options.{place_of};
ghost use Rattle.batch_nodes.specs.Parts.{literals};

use batch_nodes::Found;
use eval_values::{is_null, is_same};
use indexmap::IndexSet;
use plan_typed::Expr;
use std::alloc::Global;
use sub_types::{NoMemory, Value};

/// Up to so many literals are looked at one after the other.
const FEW: usize = 8;

/// The place of each value among the arms' literals, and how many there are where none equals it.
pub(crate) fn places_of(
    alloc: Global,
    values: &Found<'_>,
    arms: &[(Value, Expr)],
) -> Result<Vec<usize>, NoMemory>
    ensures { IfOk result (λ places. places.items ≡ map (λ value. place_of value (literals arms.now)) (found_values values.now)) }
{
    if arms.len() <= FEW {
        return places_by_each(alloc, values, arms);
    }
    if let Some(numbers) = numbers_of(alloc, arms)? {
        return places_among_numbers(alloc, values, &numbers);
    }
    if let Some(texts) = texts_of(alloc, arms)? {
        return places_among_texts(alloc, values, &texts);
    }
    places_by_each(alloc, values, arms)
}

/// The literals, where they are whole numbers, each once.
fn numbers_of(alloc: Global, arms: &[(Value, Expr)]) -> Result<Option<IndexSet<i64>>, NoMemory>
    ensures { IfOk result (λ found. IfSome found (λ numbers. map worth.Int numbers.keys ≡ literals arms.now)) }
{
    let mut numbers = IndexSet::new(alloc);
    for arm in arms {
        let Value::Int(number) = &arm.0 else {
            return Ok(None);
        };
        let (_, is_new) = numbers.insert_full(*number)?;
        if !is_new {
            return Ok(None);
        }
    }
    Ok(Some(numbers))
}

/// The literals, where they are texts or binaries, each once.
fn texts_of(alloc: Global, arms: &[(Value, Expr)]) -> Result<Option<IndexSet<Vec<u8>>>, NoMemory>
    ensures { IfOk result (λ found. IfSome found (λ texts. map (λ text. worth.Bytes text.items) texts.keys ≡ literals arms.now)) }
{
    let mut texts = IndexSet::new(alloc);
    for arm in arms {
        let Value::Bytes(bytes) = &arm.0 else {
            return Ok(None);
        };
        let (_, is_new) = texts.insert_full(Vec::from_slice(alloc, bytes.bytes())?)?;
        if !is_new {
            return Ok(None);
        }
    }
    Ok(Some(texts))
}

fn places_among_numbers(
    alloc: Global,
    values: &Found<'_>,
    numbers: &IndexSet<i64>,
) -> Result<Vec<usize>, NoMemory>
    ensures { IfOk result (λ places. places.items ≡ map (λ value. place_of value (map worth.Int numbers.now.keys)) (found_values values.now)) }
{
    let mut places = Vec::with_capacity(alloc, values.len())?;
    for i in 0..values.len() {
        let value = values.value_at(alloc, i)?;
        places.push(place_among_numbers(&value, numbers))?;
    }
    Ok(places)
}

fn place_among_numbers(value: &Value, numbers: &IndexSet<i64>) -> usize
    ensures { result ≡ place_of value.now (map worth.Int numbers.now.keys) }
{
    match value {
        Value::Int(number) => numbers.get_index_of(number).unwrap_or(numbers.len()),
        _ => numbers.len(),
    }
}

fn places_among_texts(
    alloc: Global,
    values: &Found<'_>,
    texts: &IndexSet<Vec<u8>>,
) -> Result<Vec<usize>, NoMemory>
    ensures { IfOk result (λ places. places.items ≡ map (λ value. place_of value (map (λ text. worth.Bytes text.items) texts.now.keys)) (found_values values.now)) }
{
    let mut places = Vec::with_capacity(alloc, values.len())?;
    for i in 0..values.len() {
        let value = values.value_at(alloc, i)?;
        places.push(place_among_texts(&value, texts))?;
    }
    Ok(places)
}

fn place_among_texts(value: &Value, texts: &IndexSet<Vec<u8>>) -> usize
    ensures { result ≡ place_of value.now (map (λ text. worth.Bytes text.items) texts.now.keys) }
{
    match value {
        Value::Bytes(bytes) => texts.get_index_of(bytes.bytes()).unwrap_or(texts.len()),
        _ => texts.len(),
    }
}

/// The same by one literal after the other.
fn places_by_each(
    alloc: Global,
    values: &Found<'_>,
    arms: &[(Value, Expr)],
) -> Result<Vec<usize>, NoMemory>
    ensures { IfOk result (λ places. places.items ≡ map (λ value. place_of value (literals arms.now)) (found_values values.now)) }
{
    let mut places = Vec::with_capacity(alloc, values.len())?;
    for i in 0..values.len() {
        let value = values.value_at(alloc, i)?;
        places.push(place(&value, arms))?;
    }
    Ok(places)
}

fn place(value: &Value, arms: &[(Value, Expr)]) -> usize
    ensures { result ≡ place_of value.now (literals arms.now) }
{
    let mut i = 0;
    for arm in arms {
        if is_chosen(value, &arm.0) {
            return i;
        }
        i += 1;
    }
    i
}

/// A null value equals no literal.
fn is_chosen(value: &Value, literal: &Value) -> bool
    ensures { result ≡ (not (is_null value.now) && is_same value.now literal.now) }
{
    !is_null(value) && is_same(value, literal)
}
