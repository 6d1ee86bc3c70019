//! One pipeline behind those that ran: what feeds it goes through its steps by a round of workers (`pipe_flows`), and what its breaker
//! makes of that stands behind what they did. What stands in memory after so many pipelines has its meaning in `specs/Stands.antt`.
#![tactic(auto)]

mod pipe;

pub use pipe::run_pipe;
pub use pipe_flows::Crew;
