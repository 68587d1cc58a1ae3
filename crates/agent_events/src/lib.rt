//! What comes into the agent, and what goes out of it.
#![tactic(auto)]

mod events;

pub use events::{Input, Output, Outputs};
