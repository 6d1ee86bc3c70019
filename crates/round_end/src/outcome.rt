// What the work makes of one number, and what counts of all of them.
use sub_types::Fault;

/// What the work made of the value that was read for a number.
#[derive(Debug, Drop)]
pub enum Outcome<M> {
    /// The work didn't fail.
    Made(M),
    /// The work failed by this fault, and made something of the rows before it.
    Ended(M, Fault),
    /// The number's read failed.
    ReadFault,
}

/// What counts of a round: what was made, in order, and the fault behind it, if there is one.
#[derive(Debug, Drop)]
pub struct Settled<M> {
    pub made: Vec<M>,
    pub end: Option<Fault>,
}
