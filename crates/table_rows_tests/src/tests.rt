// Batches with faults.
mod batches;
mod checking;
