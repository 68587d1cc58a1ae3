//! Disconnect-Requests to a RADIUS client, and what it answers (RFC 5176).
#![tactic(auto)]

mod disconnects;
mod verdicts;

pub use disconnects::disconnect;
pub use verdicts::verdict;
