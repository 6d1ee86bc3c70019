// Packed repeated numbers: varints one after the other (Protocol Buffers encoding, "Packed Repeated Fields").
ghost use Rattle.std.specs.Prelude.{◌≡◌, is_some};
ghost use Rattle.pb_wire.specs.Payloads.{packed_numbers};

use crate::varint;
use std::marker::Model;

/// A reader of a packed payload, seen as the numbers that are left.
#[derive(Debug, Drop)]
pub struct Packed<'a> {
    bytes: &'a [u8],
}

impl<'a> Model for Packed<'a> {
    ghost use Rattle.std.specs.Prelude.{◌≡◌, ℕ, List, [], true, is_some, unwrap_or};
    ghost use Rattle.pb_wire.specs.Payloads.{packed_numbers};

    ghost Value = { List ℕ };

    ghost view = { λ packed. unwrap_or (packed_numbers packed.bytes.now) [] };

    ghost invariant = { λ packed. is_some (packed_numbers packed.bytes.now) ≡ true };
}

impl<'a> Packed<'a> {
    ghost use Rattle.std.specs.Prelude.{◌≡◌, ◌++◌, [], IsNone};
    ghost use Rattle.std.specs.Option.{option_to_list};
    ghost use Rattle.pb_wire.specs.Payloads.{packed_numbers};

    /// A reader of the payload, or `None` where varints don't fill it.
    pub fn new(bytes: &'a [u8]) -> Option<Packed<'a>>
        ensures { result ≡ packed_numbers bytes.entry.now }
    {
        if is_packed(bytes) {
            Some(Packed { bytes })
        } else {
            None
        }
    }

    /// The next number, or `None` at the end.
    pub fn next(&mut self) -> Option<u64>
        ensures numbers { self.old ≡ option_to_list result ++ self.new }
        ensures none { IsNone result → self.old ≡ [] }
    {
        if self.bytes.len() == 0 {
            return None;
        }
        match varint(self.bytes) {
            Some((value, len)) => {
                let (_, rest) = self.bytes.split_at(len);
                self.bytes = rest;
                Some(value)
            }
            None => unreachable!(),
        }
    }
}

// Whether varints that stand one after the other fill the bytes.
fn is_packed(bytes: &[u8]) -> bool
    ensures { result ≡ is_some (packed_numbers bytes.now) }
{
    let mut rest = bytes;
    while rest.len() > 0 {
        let Some((_, len)) = varint(rest) else {
            return false;
        };
        let (_, behind) = rest.split_at(len);
        rest = behind;
    }
    true
}
