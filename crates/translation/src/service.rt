//! The services whose answers become replies.

/// What a request for access is made by.
#[derive(Clone, Copy, PartialEq, Eq)]
pub enum Service {
    /// A password, or nothing (RFC 4005).
    Nasreq,
    /// EAP (RFC 4072).
    Eap,
}
