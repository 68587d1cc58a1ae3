//! The threads of the server: readers of the sockets and of the link, the link's writer, and the links of a run one after
//! another. They take turns at a desk that answers inputs, whichever it is.
#![tactic(auto)]

mod base;
mod heard;
mod link_making;
mod link_reader;
mod link_writer;
mod links;
mod running;
mod socket_reader;
mod turns;
mod workers;

pub use base::RunBase;
pub use heard::Heard;
pub use link_making::{Dialling, dial};
pub use links::{Links, Pair};
pub use running::{
    Live, MOST_LINKS, Past, ReaderBack, RunEnd, Twins, reader_unstarted, serve_links,
};
pub use turns::{enter, take_leave};
pub use workers::{Ended, Shared, Worker};
