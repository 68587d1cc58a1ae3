//! The runs of the peers of the tests over devices: a home server, and clients that send again.
#![tactic(auto)]

mod asking;
mod home_run;
mod nas_run;

pub use asking::Target;
pub use home_run::{HomeEnd, home};
pub use nas_run::nas;
