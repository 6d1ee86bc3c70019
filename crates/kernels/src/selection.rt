//! Some rows of a batch, and where an evaluation stops.
ghost use Rattle.std.specs.Prelude.{◌≡◌, true};
ghost use Rattle.kernels.specs.Rising.{rises};

use sub_types::FaultKind;

/// Some rows, each once and in order.
#[derive(Debug, Drop)]
pub struct Selection {
    pub rows: Vec<u64>,
    pub ghost rising: { rises rows.items ≡ true },
}

/// The first row that has no value, and its fault, or that each has one.
#[derive(Clone, Copy, Debug, PartialEq, Eq)]
pub enum Stop {
    Never,
    At { row: u64, kind: FaultKind },
}
