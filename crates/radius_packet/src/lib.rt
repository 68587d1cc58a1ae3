//! RADIUS packets (RFC 2865), read and written.
#![tactic(auto)]

mod answering;
mod attribute_list;
mod checking;
mod digests;
mod fault;
pub mod laws;
mod reasons;
mod received;
mod sizes;

pub use answering::{Full, Reply};
pub use attribute_list::{Attribute, Attributes};
pub use checking::Seal;
pub use fault::PacketFault;
pub use reasons::{Reason, Via};
pub use received::Packet;
