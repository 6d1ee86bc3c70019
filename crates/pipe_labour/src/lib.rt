//! One labour for all pipelines: it reads a value for each number from a source, and makes something of each value
//! that it takes. Sources and works say what they give and make. It stands on `crew`, `hand_off` and `scan_claims`.
#![tactic(auto)]

mod item;
mod labour;
mod source;
mod work;

pub use item::Item;
pub use labour::PipeLabour;
pub use source::Source;
pub use work::Work;
