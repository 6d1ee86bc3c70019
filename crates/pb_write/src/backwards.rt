// A message that is written from its last byte to its first (Protocol Buffers encoding, "Message Structure").
ghost use Rattle.std.specs.Prelude.{◌≡◌, ◌∷◌, ◌++◌, [], List, ℕ, suc, ◌*◌, ◌^◌, ◌<◌, ◌≤◌, length, OnOk};
ghost use Rattle.pb_wire.specs.Records.{Varint, Bytes};
ghost use Rattle.pb_write.specs.Write.{varint_bytes, varint_bytes_within, key_bytes, record_bytes, packed_bytes};

use std::alloc::Global;
use std::marker::Model;
use sub_types::NoMemory;

/// Bytes that are written from the last to the first, so that a block's length is known where it is written. Contracts see
/// them in their own order.
#[derive(Debug, Drop)]
pub struct Backwards {
    reversed: Vec<u8>,
}

impl Model for Backwards {
    ghost use Rattle.std.specs.Prelude.{ℕ, List, reverse};

    ghost Value = { List ℕ };

    ghost view = { λ out. reverse out.reversed.items };
}

impl Backwards {
    /// No bytes.
    pub fn new(alloc: Global) -> Backwards
        ensures { result ≡ [] }
    {
        Backwards {
            reversed: Vec::new(alloc),
        }
    }

    pub fn len(&self) -> usize
        ensures { result ≡ length self.now }
    {
        self.reversed.len()
    }

    /// The bytes in their order. It takes no memory.
    pub fn into_vec(self) -> Vec<u8>
        ensures { result.items ≡ self }
    {
        let Backwards { mut reversed } = self;
        reversed.reverse();
        reversed
    }

    fn put(&mut self, byte: u8) -> Result<(), NoMemory>
        ensures { OnOk result (self.new ≡ byte ∷ self.old) }
    {
        self.reversed.push(byte)?;
        Ok(())
    }

    /// Bytes in front of what was written.
    #[tactic(auto, using(crate::proofs::BackwardsLaws::front))]
    pub fn bytes(&mut self, bytes: &[u8]) -> Result<(), NoMemory>
        ensures { OnOk result (self.new ≡ bytes.now ++ self.old) }
    {
        let mut left = bytes.len();
        while left > 0 {
            left -= 1;
            self.put(bytes[left])?;
        }
        Ok(())
    }

    /// A varint in front of what was written.
    #[tactic(auto, unfolding(crate::specs::Write::varint_bytes))]
    pub fn varint(&mut self, value: u64) -> Result<(), NoMemory>
        ensures { OnOk result (self.new ≡ varint_bytes value ++ self.old) }
    {
        put_varint(self, 9, value)
    }

    /// A record's key in front of what was written.
    fn key(&mut self, number: u32, wire: u32) -> Result<(), NoMemory>
        requires { wire < 8 }
        ensures { OnOk result (self.new ≡ key_bytes number wire ++ self.old) }
    {
        self.varint(u64::from(number) * 8 + u64::from(wire))
    }

    /// A record with a varint in front of what was written.
    #[tactic(auto, using(crate::proofs::BackwardsLaws::varint_put))]
    pub fn number(&mut self, number: u32, value: u64) -> Result<(), NoMemory>
        ensures { OnOk result (self.new ≡ record_bytes (record { number = number; content = Varint value }) ++ self.old) }
    {
        self.varint(value)?;
        self.key(number, 0)
    }

    /// What was written since there were so many bytes becomes a record's block.
    #[tactic(auto, using(crate::proofs::BackwardsLaws::block_put))]
    pub fn close(&mut self, number: u32, before: usize) -> Result<(), NoMemory>
        requires { before ≤ length self.old }
        ensures { OnOk result ((bytes rest : List ℕ) → self.old ≡ bytes ++ rest → length rest ≡ before → self.new ≡ record_bytes (record { number = number; content = Bytes bytes }) ++ rest) }
    {
        let size = self.len() - before;
        self.varint(size as u64)?;
        self.key(number, 2)
    }
}

#[tactic(auto, using(crate::proofs::BackwardsLaws::last_byte, crate::proofs::BackwardsLaws::low_byte, crate::proofs::BackwardsLaws::more_bytes, crate::proofs::BackwardsLaws::rest_small))]
fn put_varint(out: &mut Backwards, left: u32, value: u64) -> Result<(), NoMemory>
    requires { value < 2 * 128 ^ left }
    ensures { OnOk result (out.new ≡ varint_bytes_within (suc left) value ++ out.old) }
{
    if left == 0 {
        out.put(value as u8)
    } else if value < 128 {
        out.put(value as u8)
    } else {
        put_varint(out, left - 1, value / 128)?;
        out.put((value % 128 + 128) as u8)
    }
}
