//! Numbers of packets and attributes.

/// Packets (RFC 2865, section 3; RFC 2866, section 3).
pub(crate) const ACCESS_REQUEST: u8 = 1;

pub(crate) const ACCESS_ACCEPT: u8 = 2;

pub(crate) const ACCESS_REJECT: u8 = 3;

pub(crate) const ACCOUNTING_REQUEST: u8 = 4;

pub(crate) const ACCESS_CHALLENGE: u8 = 11;

/// RFC 2865, section 5.
pub(crate) const USER_PASSWORD: u8 = 2;

pub(crate) const CHAP_PASSWORD: u8 = 3;

pub(crate) const STATE: u8 = 24;

pub(crate) const VENDOR_SPECIFIC: u8 = 26;

pub(crate) const SESSION_TIMEOUT: u8 = 27;

/// RFC 2866, section 5, and RFC 2869, section 5.
pub(crate) const ACCT_STATUS_TYPE: u8 = 40;

pub(crate) const ACCT_INPUT_OCTETS: u8 = 42;

pub(crate) const ACCT_OUTPUT_OCTETS: u8 = 43;

pub(crate) const ACCT_INPUT_PACKETS: u8 = 47;

pub(crate) const ACCT_OUTPUT_PACKETS: u8 = 48;

pub(crate) const ACCT_TERMINATE_CAUSE: u8 = 49;

pub(crate) const ACCT_INPUT_GIGAWORDS: u8 = 52;

pub(crate) const ACCT_OUTPUT_GIGAWORDS: u8 = 53;
