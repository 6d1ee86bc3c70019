//! A plan's messages that hold no relation and no expression written into their bytes, which `plan_spell` defines. It stands
//! on `plan_spell` and `pb_write`.
#![tactic(auto)]

mod fields;
mod leaves;
mod part;
mod parts;
mod write;

pub use fields::{
    block, block_member, blocks, boxed, listed, messages, optional, presence, uint32,
};
pub use part::{HeldRef, MessagesRef, PartRef};
pub use write::write_part;
