//! The tree of a plan's bytes, or the first place at which they can't be read. It stands on `plan_scan` for flaws,
//! and closes the circle of `plan_exprs` and `plan_rels`. Its meaning stands in `plan_parts/specs/Reader.antt` (the
//! tree) and in `plan_scan/specs/Flaw.antt` (the place).
#![tactic(auto)]

mod decode;
mod knot;
mod readers;
mod root;

pub use decode::{DecodeError, decode_plan};
