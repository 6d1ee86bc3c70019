// What the list of a message's records is: in terms of places in its bytes, and of two messages one after the other. And what
// the list of a packed payload's numbers is, in terms of places.
ghost use Rattle.std.specs.Prelude.{◌≡◌, ◌++◌, ℕ, List, true, Some};
ghost use Rattle.pb_wire.specs.Payloads.{AreNumbers, fields_of, is_whole, packed_numbers};
ghost use Rattle.pb_wire.specs.Records.{Scan, records_of, IsScan};

/// The records of a message are those that stand one after the other from its first byte on, and no others.
pub fn records_by_places()
    ensures found { (bytes : List ℕ) → IsScan bytes (records_of bytes) }
    ensures only { (bytes : List ℕ) (scan : Scan) → IsScan bytes scan → scan ≡ records_of bytes }
{}

/// Where records fill the first of two messages, the records of both are its own and then those of the second.
pub fn records_of_joined()
    ensures fields { (first second : List ℕ) → is_whole first ≡ true → fields_of (first ++ second) ≡ fields_of first ++ fields_of second }
    ensures whole { (first second : List ℕ) → is_whole first ≡ true → is_whole (first ++ second) ≡ is_whole second }
{}

/// The numbers of a packed payload are the values of the varints that stand one after the other from its first byte on, the
/// last of which ends at its end; where varints don't stand so, it has no list of numbers.
pub fn numbers_by_places()
    ensures found { (bytes numbers : List ℕ) → packed_numbers bytes ≡ Some numbers → AreNumbers bytes numbers }
    ensures only { (bytes numbers : List ℕ) → AreNumbers bytes numbers → packed_numbers bytes ≡ Some numbers }
{}
