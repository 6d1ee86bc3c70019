//! The read relations of a checked relation, lent: what each reads, found by its number. Its meaning stands in
//! `cut_laws/specs/Found.antt` (`read_rels`, `read_at`).
#![tactic(auto)]

mod sources;

pub use sources::{ReadSource, source_at, sources_of};
