//! Application-IDs.

/// Common messages, of the base protocol (RFC 6733, section 2.4).
pub const COMMON: u32 = 0;

/// NASREQ (RFC 4005, section 1.3).
pub const NASREQ: u32 = 1;

/// Base accounting (RFC 6733, section 2.4).
pub const BASE_ACCOUNTING: u32 = 3;

/// EAP (RFC 4072, section 2.1).
pub const EAP: u32 = 5;
