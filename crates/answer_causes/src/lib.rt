//! Why an answer of the home server doesn't give what it says.
#![tactic(auto)]

mod access;
mod accounting;
mod answer;
mod cause;
mod laws;

pub use answer::cause_of;
pub use cause::Cause;
pub use laws::causes_are_right;
