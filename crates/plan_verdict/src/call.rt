// What a call of a function is checked as.
use plan_typed::{Func, Overflow};
use sub_types::Ty;

/// The function of a call, what it does where its result leaves its type, and its type.
#[derive(Clone, Copy, Debug)]
pub struct Call {
    pub func: Func,
    pub mode: Overflow,
    pub ty: Ty,
}
