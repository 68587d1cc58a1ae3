//! The names of statuses, with what they hold.

use crate::status::Status;
use agent_settings::ConfigFault;
use peer_machine::LinkCause;
use std::fmt;
use std::fmt::{Display, Formatter};

/// Writes the name of a fault of settings, with the place and the key that it is about.
fn write_fault<W: fmt::Write>(f: &mut Formatter<W>, fault: &ConfigFault) -> fmt::Result {
    match fault {
        ConfigFault::NotToml => f.write_str("BadConfig NotToml"),
        ConfigFault::Missing { client, key } => {
            write!(
                f,
                "BadConfig Missing {client} {}",
                key.as_slice().escape_ascii()
            )
        }
        ConfigFault::BadValue { client, key } => {
            write!(
                f,
                "BadConfig BadValue {client} {}",
                key.as_slice().escape_ascii()
            )
        }
        ConfigFault::TwiceAddress { client } => write!(f, "BadConfig TwiceAddress {client}"),
        ConfigFault::NoMemory => f.write_str("BadConfig NoMemory"),
    }
}

/// Writes the name of a cause for which the link was closed, with what it holds.
fn write_cause<W: fmt::Write>(f: &mut Formatter<W>, cause: LinkCause) -> fmt::Result {
    match cause {
        LinkCause::Refused { result } => write!(f, "LinkEnded Refused {result}"),
        LinkCause::PeerLeft { cause } => write!(f, "LinkEnded PeerLeft {cause}"),
        LinkCause::Broken { fault } => write!(f, "LinkEnded Broken {fault:?}"),
        _ => write!(f, "LinkEnded {cause:?}"),
    }
}

impl Display for Status {
    fn fmt<W: fmt::Write>(&self, f: &mut Formatter<W>) -> fmt::Result {
        match self {
            Status::BadConfig { fault } => write_fault(f, fault),
            Status::BadTranscript { line, reason } => write!(f, "BadTranscript {line} {reason}"),
            Status::PeerRefused { result } => write!(f, "PeerRefused {result}"),
            Status::LinkEnded { cause } => write_cause(f, *cause),
            Status::Done => f.write_str("Done"),
            Status::Usage => f.write_str("Usage"),
            Status::ReadFault => f.write_str("ReadFault"),
            Status::WriteFault => f.write_str("WriteFault"),
            Status::LinkFault => f.write_str("LinkFault"),
            Status::NoThread => f.write_str("NoThread"),
            Status::OutOfMemory => f.write_str("OutOfMemory"),
            Status::DatagramFault => f.write_str("DatagramFault"),
            Status::TooLong => f.write_str("TooLong"),
        }
    }
}
