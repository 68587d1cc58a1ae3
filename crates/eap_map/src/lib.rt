//! What an Access-Request with an EAP-Message becomes in Diameter, and what its answer becomes in RADIUS (RFC 4072;
//! RFC 3579).
#![tactic(auto)]

mod answers;
mod payload;
mod requests;
mod seen;

pub use answers::answer;
pub use requests::request;
