//! Why a group can't be attributes.

use thiserror::Error;

/// What is wrong with a group that an answer holds. Codes are those of its members.
#[derive(Clone, Copy, Debug, PartialEq, Eq, Error)]
pub enum TunnelFault {
    /// The body is no list of AVPs.
    #[error("the group is no list of AVPs")]
    Rotten,
    /// A member must be understood and isn't: it has a vendor, or no attribute of a tunnel has this code.
    #[error("unknown member {code}")]
    Unknown { code: u32 },
    /// A member must be understood and has a bad size: a number that isn't a zero and three octets, or a text of over
    /// 252 octets.
    #[error("member {code} has a bad size")]
    BadSize { code: u32 },
    /// There is no tag for the group: tags end at 31.
    #[error("more groups than tags")]
    TooMany,
}
