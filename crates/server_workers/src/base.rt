//! What a run of the server begins from.

use agent_settings::Config;
use run_record::EntrySender;
use std::collections::LinkedList;

/// What a run begins from: the settings, the moment of its end, the clock's readings before the first turn, and the sender of
/// its record, where it is recorded. Contracts alone speak of it.
#[derive(Drop)]
pub struct RunBase {
    pub config: Config,
    pub until: u64,
    pub before: LinkedList<u64>,
    pub sender: Option<EntrySender>,
}
