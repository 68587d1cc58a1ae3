//! The requests that were taken up, and what is kept of those that were answered.

ghost use Rattle.std.specs.Prelude.{◌≡◌, nat_lt, ◌+◌, ◌==◌, ◌%◌};
ghost use Rattle.reverse_core.specs.Requests as specs;

use crate::key::Key;
use crate::values::{AskingRequest, Headed};
use wire_core::SharedKey;

/// How often a packet is sent, at most (profile).
const MOST_TIMES: u8 = 3;

/// How long the reply to it is awaited, in milliseconds (profile).
const PAUSE: u64 = 2_000;

/// A request that was taken up.
#[derive(Drop)]
pub struct Taken {
    /// How many were taken up before it. Modulo 256 it is the packet's identifier.
    pub number: u64,
    pub key: SharedKey<'static, Key>,
    /// As it came.
    pub request: AskingRequest,
    /// The packet that it became.
    pub sent: Headed,
}

/// How often a packet was sent, and when last, in milliseconds.
#[derive(Clone, Copy, PartialEq, Eq)]
pub struct Sent {
    pub times: u8,
    pub last: u64,
}

impl Sent {
    /// Whether the reply to it is overdue.
    pub(crate) fn is_due(&self, moment: u64) -> bool
        ensures { result ≡ specs.is_due moment self.now }
    {
        PAUSE <= moment.saturating_sub(self.last)
    }

    /// Whether it is sent no more.
    pub(crate) fn is_last(&self) -> bool
        ensures exact { result ≡ specs.is_last self.now }
    {
        self.times >= MOST_TIMES
    }

    /// The same, sent once.
    pub(crate) fn first(moment: u64) -> Sent
        ensures { result ≡ specs.first_sent moment }
    {
        Sent {
            times: 1,
            last: moment,
        }
    }

    /// The same once an overdue packet was sent again.
    pub(crate) fn again(&self, moment: u64) -> Sent
        ensures { result ≡ specs.sent_again moment self.now }
    {
        if self.is_due(moment) && !self.is_last() {
            Sent {
                times: self.times + 1,
                last: moment,
            }
        } else {
            *self
        }
    }
}

/// A request that is open.
#[derive(Drop)]
pub struct OpenRequest {
    pub taken: Taken,
    pub sent: Sent,
}

impl OpenRequest {
    /// Whether no reply is awaited any more.
    pub(crate) fn is_spent(&self, moment: u64) -> bool
        ensures { result ≡ specs.is_spent moment self.now }
    {
        self.sent.is_due(moment) && self.sent.is_last()
    }
}

/// The answer to a request.
#[derive(Drop)]
pub struct KeptAnswer {
    /// The request's number.
    pub number: u64,
    pub key: SharedKey<'static, Key>,
    /// When it was given, in milliseconds.
    pub at: u64,
    pub answer: Headed,
}

impl KeptAnswer {
    /// Whether it is still to be kept, where answers are kept for `retention` milliseconds.
    pub(crate) fn is_kept(&self, retention: u64, moment: u64) -> bool
        ensures { result ≡ nat_lt moment (self.now.at + retention) }
    {
        match self.at.checked_add(retention) {
            Some(end) => moment < end,
            None => true,
        }
    }
}
