//! The record of a run: its entries go through a queue to a thread that writes them, so that a turn waits for no writing.
//! The queue is the desk of a turnstile of its own.
#![tactic(auto)]

mod entry;
mod queue;
mod recorder;
mod recording;
mod sender;

pub use entry::{Entries, Entry, EntryWriter};
pub use queue::{Asked, Given, MOST_OCTETS, Queue};
pub use recorder::{Recorder, RecorderEnd};
pub use recording::{Recorded, Unrecorded, finish_recording, start_recording};
pub use sender::EntrySender;
