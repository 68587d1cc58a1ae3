//! What is left of a run of the server.

use crate::desk::AgentDesk;
use agent_events::Input;
use server_workers::{Heard, Links};
use turnstile::TurnsOf;

/// The turns of a run, what is left of its devices, and its counts, which stop at 2^64 - 1: the turns with an answer, the
/// inputs that have none since memory was wanting, and the Ticks that were asked because a framer found none.
#[derive(Drop)]
pub struct Trail<C, D, I, O> {
    pub turns: TurnsOf<AgentDesk<C>, Input, Heard>,
    pub entries: u64,
    pub lost: u64,
    pub again: u64,
    pub auth_twin: D,
    pub acct_twin: D,
    pub links: Links<I, O>,
}
