//! The lines of a transcript run through the core, and something is told of each input.
#![tactic(auto)]

mod answers;
mod session;
mod teller;

pub use answers::{HomeAnswer, answered};
pub use session::Session;
pub use teller::Teller;
