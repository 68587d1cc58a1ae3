//! The command `count`: counters of what came in and went out, in the text format of Prometheus.
#![tactic(auto)]

mod answers;
mod block;
mod counter;
mod counting;
mod events;
mod heads;
mod tally;

pub use counting::count;
