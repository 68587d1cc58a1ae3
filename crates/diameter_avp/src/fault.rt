//! What is wrong with a list of AVPs.

use thiserror::Error;

/// The first fault of a list of AVPs, by its place: how many octets stand before it in the list.
#[derive(Clone, Copy, Debug, PartialEq, Eq, Error)]
pub enum AvpFault {
    /// 1 to 7 octets are left at the place.
    #[error("the list ends within a header at octet {place}")]
    Short { place: usize },
    /// The length of the AVP at the place is below its header's, or passes the end with its padding.
    #[error("the AVP at octet {place} has a bad length")]
    BadLength { place: usize },
}
