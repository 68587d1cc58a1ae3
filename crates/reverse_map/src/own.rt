//! What the reverse way is set up with.

use wire_core::Octets;

/// The agent as a Diameter server, and the RADIUS server behind it.
#[derive(Drop)]
pub struct Reverse {
    /// The agent's Origin-Host, of at most 64 octets.
    pub host: Octets,
    /// The agent's Origin-Realm, of at most 64 octets.
    pub realm: Octets,
    /// The IPv4 address of the RADIUS server.
    pub server: u32,
    /// Its port.
    pub port: u16,
    /// The secret that is shared with it.
    pub secret: Octets,
    /// For how many milliseconds an answer is kept.
    pub retention: u64,
}
