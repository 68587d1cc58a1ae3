//! Why octets are no packet.

use thiserror::Error;

/// What is wrong with a datagram. Places are counted from its start.
#[derive(Clone, Copy, Debug, PartialEq, Eq, Error)]
pub enum PacketFault {
    /// It has fewer octets than a header, or than its Length says.
    #[error("too few octets")]
    Short,
    /// Its Length is outside 20 to 4096.
    #[error("length out of range")]
    BadLength,
    /// The attribute that begins at `place` is not whole.
    #[error("bad attribute at {place}")]
    BadAttribute { place: usize },
}
