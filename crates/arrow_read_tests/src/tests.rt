// The reads that a file and its block take.
mod answers;
mod reading;
