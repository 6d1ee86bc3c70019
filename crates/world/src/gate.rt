// A gate before each block: a place where a test can hold a worker. It promises nothing.
use std::marker::Sync;

/// What a worker passes after it has claimed a number and before it reads that block.
pub trait Gate: Sync {
    /// Worker `worker` is about to read block `number`.
    fn before(&self, worker: u32, number: u64);
}

/// A gate that holds nobody.
#[derive(Clone, Copy, Debug)]
pub struct OpenGate;

impl Gate for OpenGate {
    fn before(&self, _worker: u32, _number: u64) {}
}
