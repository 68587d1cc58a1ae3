//! Tests of the crates of octets, packets and messages, by their public calls alone. What a packet or a message holds and
//! which fault it has, `tests/cases/shown-*.lines` shows, and how streams break, transcripts there do.
#![tactic(auto)]

#[cfg(test)]
mod avps;
#[cfg(test)]
mod hashes;
#[cfg(test)]
mod messages;
#[cfg(test)]
mod octets;
#[cfg(test)]
mod packets;
#[cfg(test)]
mod streams;
