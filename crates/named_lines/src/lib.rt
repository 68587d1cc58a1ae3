//! What comes in and goes out, in the names of the RFCs: a line for each input and output, and behind it one for each
//! attribute of a packet or AVP of a message (profile).
#![tactic(auto)]

mod attribute_lines;
mod avp_lines;
mod events;
mod headings;
mod lines;
mod values;

pub use avp_lines::vendor_name;
pub use events::{push_event, push_output};
pub use headings::{command_name, packet_name};
