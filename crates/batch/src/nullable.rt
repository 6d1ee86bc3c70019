// The value at a place where none may stand: null, or a value of the kind that is kept there.
ghost use Rattle.std.specs.Prelude.{◌≡◌, IfOk, option_copied};
ghost use Rattle.sub_types.specs.Nullable as spec;

use std::alloc::Global;
use sub_types::{ByteList, NoMemory, Value};

pub(crate) fn bool_value(truth: Option<bool>) -> Value
    ensures { result ≡ spec.bool_value truth }
{
    truth.map_or(Value::Null, Value::Bool)
}

pub(crate) fn int_value(number: Option<i64>) -> Value
    ensures { result ≡ spec.int_value number }
{
    number.map_or(Value::Null, Value::Int)
}

pub(crate) fn dec_value(number: Option<i128>) -> Value
    ensures { result ≡ spec.dec_value number }
{
    number.map_or(Value::Null, Value::Dec)
}

pub(crate) fn bytes_value(alloc: Global, bytes: Option<&[u8]>) -> Result<Value, NoMemory>
    ensures { IfOk result (λ value. value ≡ spec.bytes_value (option_copied bytes.entry)) }
{
    match bytes {
        Some(bytes) => Ok(Value::Bytes(ByteList::of(alloc, bytes)?)),
        None => Ok(Value::Null),
    }
}
