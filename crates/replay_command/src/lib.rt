//! The commands `replay` and `measure`: a transcript goes through the core.
#![tactic(auto)]

mod counts;
mod laws;
mod measuring;
mod replaying;
mod wanted;

pub use counts::Counts;
pub use laws::{generated_lines_are_sound, link_lines_can_be_cut, records_are_replayed};
pub use measuring::measure;
pub use replaying::{Replaying, replay, start_replay};
pub use wanted::wanted_in_transcript;
