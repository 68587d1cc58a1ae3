//! The names that the RFCs give to packets and messages, to what stands in them, and to values.
#![tactic(auto)]

mod avps;
mod messages;
mod values;

pub use avps::{Kind, find_avp};
pub use messages::{find_command, find_packet};
pub use values::find_value;
