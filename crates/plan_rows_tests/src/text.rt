// Rows as text: a line for each, and one for the fault.
use anyhow::Result;
use row_engine::RowStream;
use std::alloc::Global;
use sub_types::Value;

/// The lines of a stream.
pub(crate) fn stream_text(alloc: Global, stream: &RowStream) -> Result<String> {
    let mut text = String::new(alloc);
    for row in stream.rows.as_slice() {
        push_row(alloc, row.as_slice(), &mut text)?;
    }
    if let Some(fault) = stream.end {
        let relation = fault.relation;
        let kind = fault.kind;
        text.push_str(format!(in alloc; "fault {relation} {kind:?}\n")?.as_str())?;
    }
    Ok(text)
}

fn push_row(alloc: Global, row: &[Value], text: &mut String) -> Result<()> {
    text.push_str("row")?;
    for value in row {
        text.push(' ')?;
        push_value(alloc, value, text)?;
    }
    text.push('\n')?;
    Ok(())
}

/// A null, a truth value, a whole number, a decimal's digits behind `d`, or bytes in hex behind `x`.
fn push_value(alloc: Global, value: &Value, text: &mut String) -> Result<()> {
    match value {
        Value::Null => text.push_str("null")?,
        Value::Bool(truth) => text.push_str(if *truth { "true" } else { "false" })?,
        Value::Int(number) => text.push_str(format!(in alloc; "{number}")?.as_str())?,
        Value::Dec(number) => text.push_str(format!(in alloc; "d{number}")?.as_str())?,
        Value::Bytes(bytes) => {
            text.push('x')?;
            text.push_str(hex::encode(alloc, bytes.bytes())?.as_str())?;
        }
    }
    Ok(())
}
