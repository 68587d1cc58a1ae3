//! Each public call of the maps, and of the crates that they alone stand on, once with its answer. What the program
//! makes of packets and answers, `.ci/map_cases` shows.
#![tactic(auto)]

#[cfg(test)]
mod accounting;
#[cfg(test)]
mod attributes;
#[cfg(test)]
mod disconnects;
#[cfg(test)]
mod fixtures;
#[cfg(test)]
mod maps;
#[cfg(test)]
mod reverses;
#[cfg(test)]
mod sessions;
#[cfg(test)]
mod translations;
#[cfg(test)]
mod tunnels;
