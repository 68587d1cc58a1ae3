//! Lines of words: the lines of a source, as octets, and what a word stands for (profile).
#![tactic(auto)]

mod intake;
mod raw_lines;
mod word_fault;
pub mod words;

pub use raw_lines::{LONGEST_LINE, RawFault, RawLine, RawLines, first_piece};
pub use word_fault::WordFault;
pub use words::number_in;
