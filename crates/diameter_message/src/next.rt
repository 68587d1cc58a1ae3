//! What a framer answers.

use crate::fault::FrameFault;
use wire_core::Octets;

/// What comes next in a stream of messages.
#[derive(PartialEq, Eq, Drop)]
pub enum Next {
    /// The next whole message.
    Message(Octets),
    /// The octets so far end no further message.
    Wait,
    /// The stream holds no further message.
    Fault(FrameFault),
}
