//! Sizes of a packet, in octets (RFC 2865, section 3).

/// Code, identifier, Length and authenticator.
pub const HEADER: usize = 20;

/// The longest packet.
pub const MOST: usize = 4096;

/// The type of a Message-Authenticator (RFC 3579, section 3.2).
pub const SEAL: u8 = 80;
