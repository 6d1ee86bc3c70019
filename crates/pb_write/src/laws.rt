// What is written is read back.
ghost use Rattle.std.specs.Prelude.{◌≡◌, ℕ, List, Some, true};
ghost use Rattle.std.specs.List.{All};
ghost use Rattle.pb_wire.specs.Payloads.{Field, fields_of, is_whole, packed_numbers};
ghost use Rattle.pb_write.specs.Write.{IsLong, IsWritable, message_bytes, packed_bytes};

/// The records of a message are those from which it was written, and they fill its bytes.
pub fn messages_read_back()
    ensures fields { (fields : List Field) → All IsWritable fields → fields_of (message_bytes fields) ≡ fields }
    ensures whole { (fields : List Field) → All IsWritable fields → is_whole (message_bytes fields) ≡ true }
{}

/// The numbers of a packed payload are those from which it was written.
pub fn packed_numbers_read_back()
    ensures { (numbers : List ℕ) → All IsLong numbers → packed_numbers (packed_bytes numbers) ≡ Some numbers }
{}
