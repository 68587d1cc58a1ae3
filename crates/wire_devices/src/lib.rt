//! The devices of the running server: clock, sockets, link, dialer and crew. Each is a trait, told over memory and over
//! the system.
#![tactic(auto)]

mod accepting;
mod crew;
mod devices;
mod dialers_in_memory;
mod dialing;
mod jobs;
mod links_in_memory;
mod plans;
mod sockets_in_memory;
mod streams;
mod times;
mod udp;
mod waker;

pub use accepting::TcpAccepter;
pub use crew::ThreadCrew;
pub use devices::{Clock, Datagram, Datagrams, Dialer, LinkGot, LinkIn, LinkOut, Took};
pub use dialers_in_memory::{Line, MemoryDialer, SteadyDialer, SteadyLine};
pub use dialing::TcpDialer;
pub use jobs::{Crew, Job, MadeStart, RefusedStart, ThreadHelper};
pub use links_in_memory::{MemoryLinkIn, MemoryLinkOut, SteadyLinkIn, SteadyLinkOut};
pub use sockets_in_memory::{MemoryDatagrams, SteadyDatagrams};
pub use streams::{TcpIn, TcpOut};
pub use times::{MemoryClock, SystemClock};
pub use udp::UdpDatagrams;
pub use waker::Waker;
