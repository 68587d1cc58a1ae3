//! What a desk answers.

use agent_events::Outputs;
use peer_machine::LinkCause;

/// What came of an input.
#[derive(Drop)]
pub struct Heard {
    /// The greatest moment so far, in milliseconds.
    pub moment: u64,
    /// What goes out for it, but for what is sent on the link.
    pub outputs: Outputs,
    /// At a Drain, what was to be sent on the link since the last one, or since the link began.
    pub sends: Outputs,
    /// Whether the run is at its end: its time is over, or the agent wants to end.
    pub finished: bool,
    /// Why the link was closed, where it was and none began since.
    pub closed: Option<LinkCause>,
}
