//! The tagged attributes of tunnels (RFC 2868) as groups of AVPs (RFC 4005, section 7), both ways.
#![tactic(auto)]

mod checking;
mod fault;
mod kind;
pub mod laws;
mod member;
mod pushing;
mod tagged;
mod writing;

pub use checking::check_group;
pub use fault::TunnelFault;
pub use pushing::push_group;
pub use tagged::{Tagged, tag_of};
pub use writing::write_group;
