// The folders, readers and notes in memory, the gate, and the base types.
mod base_types;
mod calls;
mod failures;
mod folders;
mod notes;
mod steps;
mod sure;
