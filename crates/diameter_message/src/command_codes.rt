//! Command Codes, by the names of the RFCs; a request and its answer have the same one.

/// RFC 6733, section 3.1.
pub const CAPABILITIES_EXCHANGE: u32 = 257;

pub const RE_AUTH: u32 = 258;

pub const ACCOUNTING: u32 = 271;

pub const ABORT_SESSION: u32 = 274;

pub const SESSION_TERMINATION: u32 = 275;

pub const DEVICE_WATCHDOG: u32 = 280;

pub const DISCONNECT_PEER: u32 = 282;

/// RFC 4005, section 3.
pub const AA: u32 = 265;

/// RFC 4072, section 3.
pub const DIAMETER_EAP: u32 = 268;
