//! A source over pieces that are there already, as an earlier pipeline left them: each worker is lent the piece of
//! the number that it claimed. It stands on `pipe_labour`. Its meaning stands in its own `specs/`.
#![tactic(auto)]

mod pieces;

pub use pieces::PieceSource;
