//! The aborts that are open: Abort-Session-Requests whose Disconnect-Request has no answer yet.

ghost use Rattle.std.specs.Prelude.{◌≡◌, ◌+◌, ◌<◌, ◌≤◌, ◌==◌, [], map, filter, not, length, IfOk};
ghost use Rattle.session_book.specs.Aborts as specs;

use crate::values::DisconnectRequest;
use std::alloc::Global;
use std::marker::Model;
use wire_core::{NoMemory, Octets};

/// How many aborts are open at once, at most (profile). A search among them may go from one to the next.
pub(crate) const MOST_OPEN: usize = 64;

/// How often a Disconnect-Request is sent, at most (profile).
const MOST_TIMES: u8 = 3;

/// How long an answer to it is awaited, in milliseconds (profile).
const PAUSE: u64 = 2_000;

/// What an answer repeats of the header of an Abort-Session-Request (RFC 6733, sections 3 and 6.2).
#[derive(Clone, Copy, PartialEq, Eq)]
pub struct Asked {
    pub flags: u8,
    pub application: u32,
    pub hop: u32,
    pub end: u32,
}

/// An Abort-Session-Request that led to a Disconnect-Request.
#[derive(Drop)]
pub struct Abort {
    /// How many were opened before it.
    pub number: u64,
    pub asked: Asked,
    /// The Origin-Host of who asks.
    pub host: Octets,
    pub session: Octets,
    /// Where the Disconnect-Request goes.
    pub address: u32,
    pub request: DisconnectRequest,
}

/// How often a Disconnect-Request was sent, and when last, in milliseconds.
#[derive(Clone, Copy, PartialEq, Eq)]
pub struct Sent {
    pub times: u8,
    pub last: u64,
}

impl Sent {
    /// Whether its answer is overdue.
    pub(crate) fn is_due(&self, moment: u64) -> bool
        ensures { result ≡ specs.is_due moment self.now }
    {
        PAUSE <= moment.saturating_sub(self.last)
    }

    /// Whether it is sent no more.
    pub(crate) fn is_last(&self) -> bool
        ensures exact { result ≡ specs.is_last self.now }
    {
        self.times >= MOST_TIMES
    }

    /// Whether no answer is awaited any more.
    fn is_spent(&self, moment: u64) -> bool
        ensures { result ≡ specs.is_spent moment self.now }
    {
        self.is_due(moment) && self.is_last()
    }
}

/// An abort that is open.
#[derive(Drop)]
pub struct OpenAbort {
    pub abort: Abort,
    pub sent: Sent,
}

impl OpenAbort {
    /// The same once an overdue Disconnect-Request was sent again.
    fn renew(&mut self, moment: u64)
        ensures { self.new ≡ specs.renewed moment self.old }
    {
        if self.sent.is_due(moment) && !self.sent.is_last() {
            self.sent = Sent {
                times: self.sent.times + 1,
                last: moment,
            };
        }
    }
}

/// The open aborts in the order of opening. Contracts see them as the list.
#[derive(Drop)]
pub struct Aborts {
    list: Vec<OpenAbort>,
}

impl Model for Aborts {
    ghost use Rattle.std.specs.Prelude.{List, ◌≤◌, vec_capacity};
    ghost use Rattle.session_book.specs.declared.aborts.OpenAbort.{OpenAbort};

    ghost Value = { List OpenAbort };

    ghost view = { λ a. a.list.items };

    ghost invariant = { λ a. 64 ≤ vec_capacity a.list };
}

impl Aborts {
    /// None, with room for as many as are open at once.
    pub(crate) fn new(alloc: Global) -> Result<Aborts, NoMemory>
        ensures { IfOk result (λ a. a ≡ []) }
    {
        let list = Vec::with_capacity(alloc, MOST_OPEN)?;
        Ok(Aborts { list })
    }

    pub(crate) fn as_slice(&self) -> &[OpenAbort]
        ensures { result.now ≡ self.now }
    {
        self.list.as_slice()
    }

    /// Opens one more, whose Disconnect-Request goes out now.
    pub(crate) fn push(&mut self, abort: Abort, moment: u64)
        requires { length self.old < 64 }
        ensures { self.new ≡ specs.after (specs.Opens abort) moment self.old }
    {
        let sent = Sent {
            times: 1,
            last: moment,
        };
        self.list.push_reserved(OpenAbort { abort, sent });
    }

    /// Closes the one of this number.
    pub(crate) fn close(&mut self, number: u64)
        ensures { self.new ≡ filter (λ o. not (o.abort.number == number)) self.old }
    {
        self.list.retain(|held| held.abort.number != number);
    }

    /// Closes those that are spent, and notes of the others that are overdue that they were sent again.
    pub(crate) fn age(&mut self, moment: u64)
        ensures { self.new ≡ specs.after specs.Ages moment self.old }
    {
        self.list.retain(|held| !held.sent.is_spent(moment));
        renew_all(self.list.as_mut_slice(), moment);
    }

    /// Closes all.
    pub(crate) fn clear(&mut self)
        ensures { self.new ≡ [] }
    {
        self.list.clear();
    }
}

/// Notes of those that are overdue that they were sent again.
fn renew_all(list: &mut [OpenAbort], moment: u64)
    ensures { list.new ≡ map (specs.renewed moment) list.old }
{
    for held in list.iter_mut() {
        held.renew(moment);
    }
}
