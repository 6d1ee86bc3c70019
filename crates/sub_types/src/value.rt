// A value of a row.
ghost use Rattle.std.specs.Prelude.{◌≡◌, IfOk};

use crate::{ByteList, NoMemory};
use std::alloc::Global;

/// A value. Whole numbers, dates and timestamps are `Int`, decimals are `Dec`, texts and binaries are `Bytes`.
#[derive(Debug, Drop)]
pub enum Value {
    Null,
    Bool(bool),
    Int(i64),
    /// The decimal times 10^scale.
    Dec(i128),
    Bytes(ByteList),
}

impl Value {
    /// An equal value.
    pub fn copy(&self, alloc: Global) -> Result<Value, NoMemory>
        ensures { IfOk result (λ value. value ≡ self.now) }
    {
        match self {
            Value::Null => Ok(Value::Null),
            Value::Bool(truth) => Ok(Value::Bool(*truth)),
            Value::Int(number) => Ok(Value::Int(*number)),
            Value::Dec(number) => Ok(Value::Dec(*number)),
            Value::Bytes(bytes) => Ok(Value::Bytes(ByteList::of(alloc, bytes.bytes())?)),
        }
    }
}
