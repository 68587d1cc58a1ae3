//! What a request leaves behind until its answer comes, and what an answer gives.

use wire_core::Octets;

/// What a request asks for.
#[derive(Clone, Copy, PartialEq, Eq)]
pub enum Kind2 {
    /// Access by a password, or by none.
    Access,
    /// Access by EAP (RFC 4072).
    Eap,
    /// The start of a session to be accounted.
    Start,
    /// An interim record of it.
    Interim,
    /// Its end.
    Stop,
}

/// What is kept of a request.
#[derive(Drop)]
pub struct Kept {
    pub kind: Kind2,
    /// The place of the client in the settings.
    pub client: u32,
    pub id: u8,
    pub authenticator: [u8; 16],
    /// The Proxy-State attributes, joined, with their headers.
    pub proxy: Octets,
    /// The Session-Id.
    pub session: Octets,
    /// The Destination-Realm.
    pub realm: Octets,
    /// The Termination-Cause of a Stop, else 0.
    pub cause: u32,
}

/// The Hop-by-Hop and the End-to-End Identifier of a request (RFC 6733, section 3).
#[derive(Clone, Copy, PartialEq, Eq)]
pub struct Numbers {
    pub hop: u32,
    pub end: u32,
}

/// The Session-Id, the Destination-Realm and, where there is one, the Destination-Host of a request.
#[derive(Clone, Copy)]
pub struct Route<'a> {
    pub session: &'a [u8],
    pub realm: &'a [u8],
    pub host: Option<&'a [u8]>,
}

/// What an answer gives: the packet for the client, and a further request, where there is one.
#[derive(Drop)]
pub struct Outcome {
    pub reply: Option<Octets>,
    pub follow: Option<Octets>,
}
