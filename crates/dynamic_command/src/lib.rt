//! The command `dynamic`: a transcript goes through the book of sessions and the core beside it.
#![tactic(auto)]

mod command;
mod counts;
mod printing;
mod session;

pub use command::dynamic;
