// The worked rows of `data/`: batches of numbers and letters that are sorted by the numbers, with the letters in order.
ghost use Rattle.std.specs.Prelude.{◌≡◌, ◌<◌, ◌∷◌, [], All, IfOk};
ghost use Rattle.batch.specs.BatchRows.{types_of};

use crate::columns::{BINARY, NUMBER, letters, numbers, two_columns};
use crate::sets::value_of;
use anyhow::{Context, Result, bail};
use batch::{Batch, join_batches};
use batch_places::are_few;
use rel_specs::KeyOrder;
use sort_merge::{interleave, sort_run};
use std::alloc::Global;
use sub_types::{NoMemory, Value};

/// Whether the batches of a row are sorted as it says: put in order one by one and interleaved, and joined and put in order.
pub(crate) fn sort_holds(alloc: Global, line: &str) -> Result<bool> {
    let (name, rest) = line.split_once(": ").context("no direction")?;
    let (batches, expected) = rest.split_once(" = ").context("no answer")?;
    let key = key_of(name)?;
    let batches = batches_of(alloc, batches)?;
    let whole = sorted_whole(alloc, key, &batches)?;
    let merged = merged(alloc, key, batches)?;
    let one = text_of(alloc, &whole)?;
    let other = text_of(alloc, &merged)?;
    Ok(one.as_str() == expected && other.as_str() == expected)
}

fn key_of(name: &str) -> Result<KeyOrder>
    ensures { IfOk result (λ key. key.column ≡ 0) }
{
    match name {
        "ASC_NULLS_FIRST" => Ok(by_first(false, true)),
        "ASC_NULLS_LAST" => Ok(by_first(false, false)),
        "DESC_NULLS_FIRST" => Ok(by_first(true, true)),
        "DESC_NULLS_LAST" => Ok(by_first(true, false)),
        _ => bail!("no such direction"),
    }
}

fn by_first(descending: bool, nulls_first: bool) -> KeyOrder
    ensures { result.column ≡ 0 }
{
    KeyOrder {
        column: 0,
        descending,
        nulls_first,
    }
}

// The rows of all batches, joined and put in order.
fn sorted_whole(alloc: Global, key: KeyOrder, batches: &[Batch]) -> Result<Vec<Batch>, NoMemory>
    requires key { key.column ≡ 0 }
    requires types { All (λ batch. types_of batch ≡ NUMBER ∷ BINARY ∷ []) batches.now }
{
    if !are_few(batches) {
        return Err(NoMemory);
    }
    let whole = join_batches(alloc, &[NUMBER, BINARY], batches)?;
    let run = sorted_run(alloc, &[key], whole)?;
    let mut sorted = Vec::new(alloc);
    sorted.push(run)?;
    Ok(sorted)
}

// The rows of a batch in order.
fn sorted_run(alloc: Global, keys: &[KeyOrder], batch: Batch) -> Result<Batch, NoMemory>
    requires keys { All (λ key. key.column ≡ 0) keys.now }
    requires types { types_of batch ≡ NUMBER ∷ BINARY ∷ [] }
    ensures { IfOk result (λ run. types_of run ≡ NUMBER ∷ BINARY ∷ []) }
{
    let run = sort_run(alloc, keys, batch)?;
    Ok(run)
}

// The batches put in order one by one, and interleaved.
fn merged(alloc: Global, key: KeyOrder, batches: Vec<Batch>) -> Result<Vec<Batch>, NoMemory>
    requires key { key.column ≡ 0 }
    requires types { All (λ batch. types_of batch ≡ NUMBER ∷ BINARY ∷ []) batches.items }
{
    let mut runs = Vec::new(alloc);
    for batch in batches {
        runs.push(sorted_run(alloc, &[key], batch)?)?;
    }
    interleaved(alloc, &[key], runs)
}

fn interleaved(alloc: Global, keys: &[KeyOrder], runs: Vec<Batch>) -> Result<Vec<Batch>, NoMemory>
    requires keys { All (λ key. key.column ≡ 0) keys.now }
    requires types { All (λ run. types_of run ≡ NUMBER ∷ BINARY ∷ []) runs.items }
{
    interleave(alloc, keys, runs)
}

// Batches with `/` between them.
fn batches_of(alloc: Global, text: &str) -> Result<Vec<Batch>>
    ensures { IfOk result (λ batches. All (λ batch. types_of batch ≡ NUMBER ∷ BINARY ∷ []) batches.items) }
{
    let mut batches = Vec::new(alloc);
    for part in text.split('/') {
        batches.push(batch_of(alloc, part)?)?;
    }
    Ok(batches)
}

// Rows of a number, `:` and a letter.
fn batch_of(alloc: Global, text: &str) -> Result<Batch>
    ensures { IfOk result (λ batch. types_of batch ≡ NUMBER ∷ BINARY ∷ []) }
{
    let mut values = Vec::new(alloc);
    let mut names = Vec::new(alloc);
    for row in text.split(',') {
        let (value, name) = row.split_once(':').context("no row")?;
        values.push(value_of(value)?)?;
        names.extend_from_slice(name.as_bytes())?;
    }
    let first = numbers(alloc, &values)?;
    let second = letters(alloc, &names)?;
    Ok(two_columns(alloc, first, second)?)
}

// The letters of batches.
fn text_of(alloc: Global, batches: &[Batch]) -> Result<String> {
    let mut text = String::new(alloc);
    for batch in batches {
        push_letters(alloc, &mut text, batch)?;
    }
    Ok(text)
}

fn push_letters(alloc: Global, text: &mut String, batch: &Batch) -> Result<()> {
    if batch.columns.len() != 2 {
        bail!("not two columns");
    }
    for row in 0..batch.rows {
        match batch.value_at(alloc, 1, row)? {
            Value::Bytes(bytes) => text.push(letter_of(bytes.bytes()))?,
            _ => bail!("no letter"),
        }
    }
    Ok(())
}

fn letter_of(bytes: &[u8]) -> char {
    match bytes.first() {
        Some(letter) => char::from(*letter),
        None => '?',
    }
}
