//! What is wrong with a message, and with a stream of messages.

use thiserror::Error;

/// Why octets are no message: the first that stands, in this order.
#[derive(Clone, Copy, Debug, PartialEq, Eq, Error)]
pub enum MessageFault {
    /// There are fewer than 20 octets.
    #[error("the message is shorter than a header")]
    Short,
    /// The first octet isn't 1.
    #[error("the version is not 1")]
    BadVersion,
    /// The length field isn't the count of octets, or isn't a multiple of 4.
    #[error("the length is wrong")]
    BadLength,
}

/// Why a stream of octets holds no further message.
#[derive(Clone, Copy, Debug, PartialEq, Eq, Error)]
pub enum FrameFault {
    /// The first octet isn't 1.
    #[error("the version is not 1")]
    BadVersion,
    /// The length is below 20, or isn't a multiple of 4.
    #[error("the length is wrong")]
    BadLength,
    /// The length is a multiple of 4 above 65,536.
    #[error("the message is too long")]
    TooLong,
}
