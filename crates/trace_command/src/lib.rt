//! The command `trace`: what comes in and goes out, in the names of the RFCs, and why an answer didn't give what it says.
#![tactic(auto)]

mod causes;
mod tracer;
mod tracing;

pub use tracing::trace;
