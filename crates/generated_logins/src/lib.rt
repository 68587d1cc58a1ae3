//! Generated transcripts: one client's logins and their answers (profile).
#![tactic(auto)]

mod generate_fault;
mod generator;
mod login;

pub use generate_fault::GenerateFault;
pub use generator::{Generator, generate};
