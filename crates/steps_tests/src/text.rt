// Rows and their end as text.
use anyhow::Result;
use row_steps::RowStream;
use std::alloc::Global;
use sub_types::Value;

/// The rows with `|` between them, and `!` before the fault that ends them, if there is one; `none` for neither.
pub(crate) fn text_of(alloc: Global, stream: &RowStream) -> Result<String> {
    let mut text = String::new(alloc);
    for row in stream.rows.as_slice() {
        if !text.is_empty() {
            text.push('|')?;
        }
        push_row(alloc, &mut text, row.as_slice())?;
    }
    if let Some(fault) = stream.end {
        let relation = fault.relation;
        let kind = fault.kind;
        text.push_str(format!(in alloc; "!{relation}:{kind:?}")?.as_str())?;
    }
    if text.is_empty() {
        text.push_str("none")?;
    }
    Ok(text)
}

fn push_row(alloc: Global, text: &mut String, row: &[Value]) -> Result<()> {
    let mut is_first = true;
    for value in row {
        if !is_first {
            text.push(',')?;
        }
        is_first = false;
        push_value(alloc, text, value)?;
    }
    Ok(())
}

fn push_value(alloc: Global, text: &mut String, value: &Value) -> Result<()> {
    match value {
        Value::Int(number) => text.push_str(format!(in alloc; "{number}")?.as_str())?,
        Value::Null => text.push_str("null")?,
        _ => text.push_str("?")?,
    }
    Ok(())
}
