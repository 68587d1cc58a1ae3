//! A journal of what a command makes of the lines of its input: each line stands with what went out for it, sealed by
//! HMAC-MD5 with the block before.
#![tactic(auto)]

mod block;
mod checker;
mod due;
mod printed;
mod verdict;
mod writer;

pub use verdict::{Verdict, check_journal};
pub use writer::write_journal;
