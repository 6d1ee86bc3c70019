//! A plan's tree written into its bytes, which `plan_spell` defines. It stands on `spell_leaves` and `pb_write`.
#![tactic(auto)]

mod exprs;
mod part;
mod parts;
mod rels;
mod write;

pub use write::spell;
