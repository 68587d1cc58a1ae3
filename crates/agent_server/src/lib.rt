//! The running server: one core behind a clock, at which threads take turns.
#![tactic(auto)]

mod desk;
mod recorded;
mod server;
mod stand;
mod team;
mod trail;

pub use desk::AgentDesk;
pub use recorded::{RecordedRun, record};
pub use server::{Finish, World, serve};
pub use server_workers::{Ended, Heard, Links, Pair, RunBase};
pub use trail::Trail;

/// What a thread of the server does.
pub type Worker<C, D, I> = server_workers::Worker<AgentDesk<C>, D, I>;
