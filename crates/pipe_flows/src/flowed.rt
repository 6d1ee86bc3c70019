// What comes through steps.
use read_rounds::Part;
use sub_types::Ty;

/// What is kept of what comes through the steps of a pipeline, in parts in order, and the types that it is stored with.
#[derive(Drop)]
pub struct Flowed {
    pub parts: Vec<Part>,
    pub types: Vec<Ty>,
}
