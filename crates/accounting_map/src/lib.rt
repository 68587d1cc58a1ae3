//! What an Accounting-Request becomes in Diameter, and what its answer becomes in RADIUS (RFC 4005, section 9).
#![tactic(auto)]

mod answers;
mod codes;
mod judging;
mod numbers;
mod records;
mod requests;
mod statuses;

pub use answers::{answer, termination};
pub use judging::judge;
pub use records::{cause, session_id};
pub use requests::request;
