//! Numbers of attributes.

/// Attributes (RFC 2865, section 5; RFC 3579, section 3.1).
pub(crate) const USER_NAME: u8 = 1;

pub(crate) const USER_PASSWORD: u8 = 2;

pub(crate) const CHAP_PASSWORD: u8 = 3;

pub(crate) const NAS_PORT: u8 = 5;

pub(crate) const NAS_IDENTIFIER: u8 = 32;
