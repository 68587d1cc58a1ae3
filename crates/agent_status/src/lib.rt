//! How a run of the agent ended.
#![tactic(auto)]

mod status;
mod text;

pub use status::Status;
