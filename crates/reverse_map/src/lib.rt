//! Diameter requests for a RADIUS server, and its replies in Diameter (RFC 4005, section 9.2).
#![tactic(auto)]

mod access;
mod accounting;
mod answers;
mod codes;
mod fault;
mod heads;
mod images;
mod own;
mod packets;
mod pushing;
mod rows;
mod understanding;

pub use answers::{answer, refuse};
pub use fault::ReverseFault;
pub use own::Reverse;
pub use packets::packet;
