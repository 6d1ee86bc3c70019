// A set of values.
ghost use Rattle.std.specs.Prelude.{◌≡◌, ◌||◌, false, OnOk};
ghost use Rattle.sub_types.specs.declared.value.Value.{Value};
ghost use Rattle.plan_denote.specs.Order.{is_same};
ghost use Rattle.std.specs.Prelude.{ℕ, List};
ghost use Rattle.std.specs.Str.{bytes_eq};
ghost use Rattle.sub_types.specs.declared.value.Value.TheVariants as values;
ghost use Rattle.value_sets.specs.Sets.{has, has_text};

use indexmap::IndexSet;
use std::alloc::Global;
use sub_types::{NoMemory, Value};

/// Values of any kinds, null among them, each once. Contracts see which values are in it, by `has`.
#[derive(Drop)]
pub struct ValueSet {
    has_null: bool,
    has_false: bool,
    has_true: bool,
    ints: IndexSet<i64>,
    decimals: IndexSet<i128>,
    texts: IndexSet<Vec<u8>>,
}

impl ValueSet {
    /// No values.
    pub fn new(alloc: Global) -> ValueSet
        ensures { (value : Value) → has result value ≡ false }
    {
        ValueSet {
            has_null: false,
            has_false: false,
            has_true: false,
            ints: IndexSet::new(alloc),
            decimals: IndexSet::new(alloc),
            texts: IndexSet::new(alloc),
        }
    }

    /// Adds a value. Its bytes are copied only where they are new.
    pub fn insert(&mut self, alloc: Global, value: &Value) -> Result<(), NoMemory>
        ensures { OnOk result ((other : Value) → has self.new other ≡ (is_same other value.now || has self.old other)) }
    {
        match value {
            Value::Null => {
                self.has_null = true;
                Ok(())
            }
            Value::Bool(false) => {
                self.has_false = true;
                Ok(())
            }
            Value::Bool(true) => {
                self.has_true = true;
                Ok(())
            }
            Value::Int(number) => {
                self.ints.insert(*number)?;
                Ok(())
            }
            Value::Dec(number) => {
                self.decimals.insert(*number)?;
                Ok(())
            }
            Value::Bytes(bytes) => insert_text(alloc, &mut self.texts, bytes.bytes()),
        }
    }

    /// Whether the value is there, null where null is.
    pub fn contains(&self, value: &Value) -> bool
        ensures { result ≡ has self.now value.now }
    {
        match value {
            Value::Null => self.has_null,
            Value::Bool(test) => if *test { self.has_true } else { self.has_false },
            Value::Int(number) => self.ints.contains(number),
            Value::Dec(number) => self.decimals.contains(number),
            Value::Bytes(bytes) => self.texts.contains(bytes.bytes()),
        }
    }

    /// Whether null is there.
    pub fn contains_null(&self) -> bool
        ensures { result ≡ has self.now values.Null }
    {
        self.has_null
    }

    /// Whether the integer is there.
    pub fn contains_int(&self, number: i64) -> bool
        ensures { result ≡ has self.now (values.Int number) }
    {
        self.ints.contains(&number)
    }

    /// Whether the bytes of a text or a binary are there, which need not be a value's.
    pub fn contains_bytes(&self, bytes: &[u8]) -> bool
        ensures { result ≡ has self.now (values.Bytes bytes.now) }
    {
        self.texts.contains(bytes)
    }
}

// Adds bytes, which are copied where they are new.
fn insert_text(alloc: Global, texts: &mut IndexSet<Vec<u8>>, bytes: &[u8]) -> Result<(), NoMemory>
    ensures { OnOk result ((other : List ℕ) → has_text texts.new.keys other ≡ (bytes_eq other bytes.now || has_text texts.old.keys other)) }
{
    if texts.contains(bytes) {
        return Ok(());
    }
    texts.insert(Vec::from_slice(alloc, bytes)?)?;
    Ok(())
}
