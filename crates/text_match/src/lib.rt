//! Whether a text begins with, ends with, contains or is like a pattern, over the bytes of both and without a copy. Each is
//! its definition in `plan_denote`. It stands on `memchr` for searches.
#![tactic(auto)]

mod pattern;
mod text;

pub use pattern::like;
pub use text::{contains, ends_with, starts_with};
