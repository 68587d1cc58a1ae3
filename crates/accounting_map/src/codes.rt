//! Numbers of attributes.

/// RFC 2866, section 5, and RFC 2869, section 5.
pub(crate) const ACCT_STATUS_TYPE: u8 = 40;

pub(crate) const ACCT_INPUT_OCTETS: u8 = 42;

pub(crate) const ACCT_OUTPUT_OCTETS: u8 = 43;

pub(crate) const ACCT_SESSION_ID: u8 = 44;

pub(crate) const ACCT_SESSION_TIME: u8 = 46;

pub(crate) const ACCT_INPUT_PACKETS: u8 = 47;

pub(crate) const ACCT_OUTPUT_PACKETS: u8 = 48;

pub(crate) const ACCT_TERMINATE_CAUSE: u8 = 49;

pub(crate) const ACCT_INPUT_GIGAWORDS: u8 = 52;

pub(crate) const ACCT_OUTPUT_GIGAWORDS: u8 = 53;
