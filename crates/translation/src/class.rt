//! What an answer comes to.

/// The class of an answer to a request for access.
#[derive(Clone, Copy, PartialEq, Eq)]
pub enum Class {
    /// It can't be translated.
    Bad,
    Refusal,
    Challenge,
    Success,
}
