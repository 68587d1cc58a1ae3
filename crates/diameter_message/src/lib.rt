//! Diameter messages (RFC 6733, section 3): read in place and written.
//!
//! A message is written by `MessageWriter::new`, a `put` for each AVP and `finish`. Contracts see
//! the writer as `begun` of its header and the list of its AVPs, and `finish` gives `message_text`
//! of the two. The writer of the AVPs itself is lent by `avps`; a caller that keeps its front, as
//! its `put` does, may finish the message too.
//!
//! A stream is cut into messages by `Framer`. Its clauses `stands` and `stream` speak of all octets
//! that were fed and of all messages that were given: a loop over pieces keeps `StandsFor` of the two.
#![tactic(auto)]

pub mod applications;
pub mod avp_codes;
pub mod command_codes;
pub mod command_flags;
mod fault;
mod finding;
mod framer;
mod header;
pub mod laws;
mod message;
mod next;
mod plain_avps;
mod results;
mod retransmission;
mod writer;

pub use fault::{FrameFault, MessageFault};
pub use finding::{find_avp, find_number, find_only, has_code, number_of};
pub use framer::Framer;
pub use header::Header;
pub use message::{Message, parse};
pub use next::Next;
pub use results::{is_success, result_code};
pub use retransmission::again;
pub use writer::MessageWriter;
