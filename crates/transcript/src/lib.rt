//! The text form of what comes in: a transcript's lines of words, read (profile).
#![tactic(auto)]

mod control;
mod happening;
mod kind;
mod laws;
mod line;
mod line_fault;
mod lines;
mod link_stream;
mod position;
mod reader;
mod settings;

pub use laws::{
    event_lines_are_read, lines_are_bad_for_a_reason, lines_can_follow, lines_have_a_grammar,
    records_are_transcripts, settings_lines_are_read,
};
pub use line::{Inputs, Line};
pub use line_fault::LineFault;
pub use lines::Lines;
pub use reader::LineReader;
