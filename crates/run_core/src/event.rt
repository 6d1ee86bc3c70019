// The five atomic actions of a worker, and what it may hold between them.

/// One atomic action of one worker. Workers are numbered from 0.
#[derive(Clone, Copy, Debug, PartialEq, Eq)]
pub enum Event {
    /// Draws the next number.
    Claim { worker: u32 },
    /// Puts the number that it has just claimed at the back of the queue.
    Put { worker: u32 },
    /// Keeps the number that it has just claimed, since the queue is full.
    Refuse { worker: u32 },
    /// Takes the number at the front of the queue.
    Take { worker: u32 },
    /// Ends the work on the number that it holds.
    Finish { worker: u32 },
}

/// The number that a worker holds.
#[derive(Clone, Copy, Debug, PartialEq, Eq)]
pub enum Held {
    /// Just claimed, and not offered yet.
    Fresh(u64),
    /// To be worked by this worker.
    Due(u64),
}
