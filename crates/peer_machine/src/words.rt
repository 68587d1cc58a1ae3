//! What the table of the link's rules speaks of.

use crate::{LinkCause, Phase};
use diameter_message::FrameFault;
use radius_packet::Reason;

/// A request of the base protocol that the link sends.
#[derive(Clone, Copy, PartialEq, Eq)]
pub enum BaseRequest {
    /// RFC 6733, section 5.3.
    CapabilitiesExchange,
    /// RFC 6733, section 5.5.
    DeviceWatchdog,
    /// RFC 6733, section 5.4.
    DisconnectPeer,
}

/// What a message says to the link (RFC 6733, sections 5.3 to 5.5).
#[derive(Clone, Copy, PartialEq, Eq)]
pub enum Said {
    CapabilitiesRequest,
    /// The answer to the link's own request, with its Result-Code, or 0 where none can be read.
    CapabilitiesAnswer { result: u32 },
    WatchdogRequest,
    WatchdogAnswer,
    /// With its Disconnect-Cause, or 0 where none can be read.
    DisconnectRequest { cause: u32 },
    DisconnectAnswer,
    /// Re-Auth or Abort-Session.
    SessionRequest,
    OtherRequest,
    /// An answer to a request that the agent sent for a client.
    ApplicationAnswer,
    OtherAnswer,
}

/// What comes in, without the octets of a message.
#[derive(Clone, Copy, PartialEq, Eq)]
pub enum Event {
    /// The link is there, with its capabilities still to be exchanged.
    Opens,
    /// The link is there, with its capabilities exchanged.
    Serves,
    Says { said: Said },
    Breaks { fault: FrameFault },
    Ends,
    Ticks,
    Leaves,
}

/// What is done about an input.
#[derive(Clone, Copy, PartialEq, Eq)]
pub enum Act {
    Nothing,
    /// From here on the link serves.
    Serve,
    Discard { reason: Reason },
    /// The message is handed on.
    Pass,
    Close { cause: LinkCause },
    Request { request: BaseRequest },
    Answer { code: u32, error: bool },
    AnswerAndClose { code: u32, cause: LinkCause },
}

/// The state of the link.
#[derive(Clone, Copy, PartialEq, Eq)]
pub struct LinkState {
    pub phase: Phase,
    /// How many links began.
    pub number: u64,
    /// When the link began, or its last message came.
    pub heard: u64,
    /// When a Device-Watchdog-Request was sent, if no message came since.
    pub asked: Option<u64>,
    /// When the agent asked to leave.
    pub leave: u64,
    /// How many requests of the base protocol were sent on the link, modulo 2^31.
    pub requests: u32,
}
