//! The header of a message.

/// The header of a Diameter message (RFC 6733, section 3) without its version and its length.
#[derive(Clone, Copy, PartialEq, Eq)]
pub struct Header {
    /// The command flags: R is 0x80, P 0x40, E 0x20 and T 0x10.
    pub flags: u8,
    /// The Command Code, below 2^24.
    pub command: u32,
    /// The Application-ID.
    pub application: u32,
    /// The Hop-by-Hop Identifier.
    pub hop: u32,
    /// The End-to-End Identifier.
    pub end: u32,
}
