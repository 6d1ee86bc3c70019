// The numbers, texts and bytes of a message's fields.
ghost use Rattle.std.specs.Prelude.{◌≡◌, ◌++◌, [], IfOk, unwrap_or};
ghost use Rattle.pb_wire.specs.Seen.{field_seen};
ghost use Rattle.pb_wire.specs.Payloads.{numbers_in, packed_numbers};

use crate::message::Message;
use crate::records::{block_of, varint_of};
use pb_wire::{Packed, Payload, Record};
use std::alloc::Global;
use sub_types::{ByteList, NoMemory, Word};

/// The numbers below it are the low 32 bits.
const LOW: u64 = 1 << 32;

impl<'a> Message<'a> {
    ghost use Rattle.std.specs.Prelude.{◌≡◌, ◌++◌, is_some, IfOk};
    ghost use Rattle.std.specs.Option.{option_copied};
    ghost use Rattle.pb_wire.specs.Seen.{field_seen};
    ghost use Rattle.pb_wire.specs.Payloads.{fields_of, blocks, last_varint, last_block, uint32_field, int32_field, int64_field, bool_field, bytes_field, numbers_in, repeated_numbers, uint32_numbers, int32_numbers};
    ghost use Rattle.plan_scan.specs.Table.{HoldsText};

    /// A field of uint32 or an enum: the low 32 bits of the last number, or 0 where it is absent.
    pub fn uint32(&self, number: u32) -> u32
        ensures { result ≡ uint32_field number (fields_of self.now.bytes) }
    {
        match self.last_varint(number) {
            Some(value) => (value % LOW) as u32,
            None => 0,
        }
    }

    /// A field of int32: the low 32 bits of the last number in two's complement, or 0 where it is absent.
    pub fn int32(&self, number: u32) -> i32
        ensures { result ≡ int32_field number (fields_of self.now.bytes) }
    {
        match self.last_varint(number) {
            Some(value) => ((value % LOW) as u32).cast_signed(),
            None => 0,
        }
    }

    /// A field of int64: the last number in two's complement, or 0 where it is absent.
    pub fn int64(&self, number: u32) -> i64
        ensures { result ≡ int64_field number (fields_of self.now.bytes) }
    {
        match self.last_varint(number) {
            Some(value) => value.cast_signed(),
            None => 0,
        }
    }

    /// A field of bool: whether the last number isn't 0, or false where it is absent.
    pub fn boolean(&self, number: u32) -> bool
        ensures { result ≡ bool_field number (fields_of self.now.bytes) }
    {
        match self.last_varint(number) {
            Some(value) => value != 0,
            None => false,
        }
    }

    /// Whether a field of texts, bytes or messages is there.
    pub fn has(&self, number: u32) -> bool
        ensures { result ≡ is_some (last_block number (fields_of self.now.bytes)) }
    {
        self.last_block(number).is_some()
    }

    /// A field of bytes: the last, or none where it is absent.
    pub fn bytes(&self, number: u32) -> &'a [u8]
        ensures { result.now ≡ bytes_field number (fields_of self.now.bytes) }
    {
        match self.last_block(number) {
            Some(bytes) => bytes,
            None => &[],
        }
    }

    /// A copy of a field of bytes.
    pub fn byte_list(&self, alloc: Global, number: u32) -> Result<ByteList, NoMemory>
        ensures { IfOk result (λ list. list ≡ bytes_field number (fields_of self.now.bytes)) }
    {
        ByteList::of(alloc, self.bytes(number))
    }

    /// A copy of a field of text: the last, or the empty one where it is absent.
    pub fn text(&self, alloc: Global, number: u32) -> Result<Word, NoMemory>
        requires { HoldsText self.now.shape number }
        ensures { IfOk result (λ text. text ≡ bytes_field number (fields_of self.now.bytes)) }
    {
        // The message has no flaw, so that the text is UTF-8.
        let _ = &self.shape;
        match std::str::from_utf8(self.bytes(number)) {
            Ok(text) => Word::of(alloc, text),
            Err(_) => unreachable!(),
        }
    }

    /// Copies of the texts or bytes of a repeated field.
    pub fn texts(&self, alloc: Global, number: u32) -> Result<Vec<ByteList>, NoMemory>
        ensures { IfOk result (λ texts. texts.items ≡ blocks number (fields_of self.now.bytes)) }
    {
        let mut texts = Vec::new(alloc);
        let mut blocks = self.blocks(number);
        while let Some(block) = blocks.next() {
            texts.push(ByteList::of(alloc, block)?)?;
        }
        Ok(texts)
    }

    /// A repeated field of uint32, packed or not: the low 32 bits of each number.
    pub fn uint32s(&self, alloc: Global, number: u32) -> Result<Vec<u32>, NoMemory>
        ensures { IfOk result (λ numbers. numbers.items ≡ uint32_numbers number (fields_of self.now.bytes)) }
    {
        let values = self.numbers(alloc, number)?;
        let mut numbers = Vec::new(alloc);
        for value in &values {
            numbers.push((*value % LOW) as u32)?;
        }
        Ok(numbers)
    }

    /// A repeated field of int32, packed or not: the low 32 bits of each number in two's complement.
    pub fn int32s(&self, alloc: Global, number: u32) -> Result<Vec<i32>, NoMemory>
        ensures { IfOk result (λ numbers. numbers.items ≡ int32_numbers number (fields_of self.now.bytes)) }
    {
        let values = self.numbers(alloc, number)?;
        let mut numbers = Vec::new(alloc);
        for value in &values {
            numbers.push(((*value % LOW) as u32).cast_signed())?;
        }
        Ok(numbers)
    }

    // The last number of a field, or `None` where it is absent.
    fn last_varint(&self, number: u32) -> Option<u64>
        ensures { result ≡ last_varint number (fields_of self.now.bytes) }
    {
        let mut last = None;
        let mut records = self.records();
        while let Some(found) = records.next() {
            if let Some(value) = varint_of(&found, number) {
                last = Some(value);
            }
        }
        last
    }

    // The last payload of a field of texts, bytes or messages, or `None` where it is absent.
    fn last_block(&self, number: u32) -> Option<&'a [u8]>
        ensures { option_copied result ≡ last_block number (fields_of self.now.bytes) }
    {
        let mut last = None;
        let mut blocks = self.blocks(number);
        while let Some(block) = blocks.next() {
            last = Some(block);
        }
        last
    }

    // The numbers of a repeated field, as they stand.
    fn numbers(&self, alloc: Global, number: u32) -> Result<Vec<u64>, NoMemory>
        ensures { IfOk result (λ numbers. numbers.items ≡ repeated_numbers number (fields_of self.now.bytes)) }
    {
        let mut numbers = Vec::new(alloc);
        let mut records = self.records();
        while let Some(found) = records.next() {
            push_numbers(&mut numbers, &found, number)?;
        }
        Ok(numbers)
    }
}

// Appends the numbers of a record, where it is of this field.
fn push_numbers(numbers: &mut Vec<u64>, found: &Record<'_>, number: u32) -> Result<(), NoMemory>
    ensures { IfOk result (λ _. numbers.new.items ≡ numbers.old.items ++ numbers_in number (field_seen found.now)) }
{
    if found.number != number {
        return Ok(());
    }
    match found.payload {
        Payload::Varint(value) => numbers.push(value)?,
        Payload::Bytes(bytes) => push_packed(numbers, bytes)?,
        Payload::Eight(_) | Payload::Four(_) => {}
    }
    Ok(())
}

// Appends the numbers of a packed payload, or none where varints don't fill it.
fn push_packed(numbers: &mut Vec<u64>, bytes: &[u8]) -> Result<(), NoMemory>
    ensures { IfOk result (λ _. numbers.new.items ≡ numbers.old.items ++ unwrap_or (packed_numbers bytes.now) []) }
{
    let Some(mut packed) = Packed::new(bytes) else {
        return Ok(());
    };
    while let Some(value) = packed.next() {
        numbers.push(value)?;
    }
    Ok(())
}
