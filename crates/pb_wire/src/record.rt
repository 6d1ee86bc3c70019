// A record of a message.

/// What a record holds, by its wire type.
#[derive(Clone, Copy, Debug)]
pub enum Payload<'a> {
    /// Wire type 0.
    Varint(u64),
    /// Wire type 1: eight bytes, the least first.
    Eight(u64),
    /// Wire type 2: a length and that many bytes.
    Bytes(&'a [u8]),
    /// Wire type 5: four bytes, the least first.
    Four(u32),
}

/// A record: the place of its key, its field's number and what it holds.
#[derive(Clone, Copy, Debug)]
pub struct Record<'a> {
    pub place: usize,
    pub number: u32,
    pub payload: Payload<'a>,
}
