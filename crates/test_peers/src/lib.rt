//! The peers of the agent in its tests: a home server, and a client that sends again (profile).
#![tactic(auto)]

mod answers;
mod fault;
mod finding;
mod home;
mod lines;
mod nas;
mod packet_lines;
mod users;

pub use fault::HomeFault;
pub use home::Home;
pub use nas::{Nas, NasOutput};
pub use packet_lines::{LineFault, packet_in_line};
