//! The live entries: what is kept of each request that was taken up, until its time ends.
#![tactic(auto)]

mod entry;
mod garbage;
mod key;
mod row;
mod sends;
mod stores;
mod table;

pub use entry::{Answer, Entry, Found};
pub use key::Key;
pub use sends::Sends;
pub use table::Table;
