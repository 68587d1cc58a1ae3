//! Commands that go from one text to another: each reads a source to its end, or nothing, and writes to a sink.
#![tactic(auto)]

mod checking;
mod following;
mod generating;
mod settings_input;
mod showing;
mod told_settings;
mod whole_input;
mod work;

pub use checking::check;
pub use following::{Follower, TranscriptWork, follow_transcript};
pub use generating::generate;
pub use settings_input::take_settings;
pub use showing::show;
pub use told_settings::join_client;
pub use whole_input::take_whole;
pub use work::{Work, run, take_lines, write_text};
