//! The commands over sockets: `serve` and `record`, and the peers of the tests, `home` and `nas`.
#![tactic(auto)]

mod peers;
mod recording;
mod serving;

pub use peers::{run_home, run_nas};
pub use recording::{CommandEnd, Tape, run_recorder, unrecorded};
pub use serving::{idle, run_server};
