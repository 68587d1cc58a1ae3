//! Tests of the table of live requests, of the link's rules, of the core and of the book of sessions, by their public calls
//! alone. What the first three do with each input, the transcripts of `examples/` and `tests/cases/` show.
#![tactic(auto)]

#[cfg(test)]
mod books;
#[cfg(test)]
mod cores;
#[cfg(test)]
mod links;
#[cfg(test)]
mod tables;
