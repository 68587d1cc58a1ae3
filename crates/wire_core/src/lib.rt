//! Octets, numbers on the wire, names, and the reader and writer that everything else stands on.
#![tactic(auto)]

mod adapters;
mod in_memory;
mod laws;
mod memory;
mod names;
mod numbers;
mod octet_string;
mod outside;
mod shared_key;

pub use adapters::{ReaderSource, WriterSink};
pub use in_memory::{MemorySink, MemorySource, SteadySink, SteadySource};
pub use laws::numbers_are_read_back;
pub use memory::NoMemory;
pub use names::{is_identity, is_session_text};
pub use numbers::{get_u16, get_u24, get_u32, get_u64, put_u16, put_u24, put_u32, put_u64};
pub use octet_string::Octets;
pub use outside::{Got, Put, Sink, Source};
pub use shared_key::SharedKey;
