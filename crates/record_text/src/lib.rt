//! A record as the lines of a transcript.
#![tactic(auto)]

mod writer;

pub use writer::{RecordText, TextBase};
