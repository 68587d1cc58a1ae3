//! The link to the home server: when it opens, watches, answers and closes (RFC 6733, sections 5.3 to 5.5; RFC 3539;
//! profile).
#![tactic(auto)]

mod messages;
mod peer;
mod reading;
mod rules;
mod words;

use diameter_message::FrameFault;
pub use peer::{Peer, PeerInput, PeerOutput};

/// Where the link to the home server stands (profile).
#[derive(Clone, Copy, PartialEq, Eq)]
pub enum Phase {
    Closed,
    Greeting,
    Serving,
    Closing,
}

/// Why a link was closed (profile).
#[derive(Clone, Copy, Debug, PartialEq, Eq)]
pub enum LinkCause {
    Refused { result: u32 },
    PeerLeft { cause: u32 },
    Broken { fault: FrameFault },
    Ended,
    Watchdog,
    Stalled,
    Left,
}
