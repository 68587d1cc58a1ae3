//! What an Access-Request becomes in Diameter, and what its answer becomes in RADIUS (RFC 4005).
#![tactic(auto)]

mod answers;
mod codes;
mod judging;
mod passwords;
mod requests;

pub use answers::answer;
pub use judging::judge;
pub use requests::request;
