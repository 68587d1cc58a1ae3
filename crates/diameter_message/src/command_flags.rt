//! The command flags of a header (RFC 6733, section 3).

/// R: the message is a request.
pub const REQUEST: u8 = 0x80;

/// P: it may be proxied.
pub const PROXIABLE: u8 = 0x40;

/// E: it is an answer with a protocol error.
pub const ERROR: u8 = 0x20;

/// T: it is a request that may have been sent before.
pub const RETRANSMITTED: u8 = 0x10;
