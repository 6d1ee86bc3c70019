// What makes the bytes of a plan unreadable.

/// The first flaw of a plan, with the place in the plan of the key of the record that has it.
#[derive(Clone, Copy, Debug, PartialEq, Eq)]
pub enum Flaw {
    /// No record stands there, its text isn't UTF-8, or its packed numbers don't fill it.
    Unreadable(usize),
    /// A message one level deeper than is read.
    TooDeep(usize),
}
