//! What is kept of one request.

ghost use Rattle.std.specs.Prelude.{◌≡◌, ◌+◌, nat_lt, option_copied};
ghost use Rattle.pending_table.specs.Table as parts;

use crate::Key;
use radius_packet::Via;
use session_carrier::Kept;
use wire_core::Octets;

/// What became of a request that was taken up: nothing yet since it was sent, or an answer at a moment, in milliseconds.
#[derive(Drop)]
pub enum Answer {
    Waiting { sent: Octets },
    Silent { at: u64 },
    Replied { at: u64, reply: Octets },
}

/// A request that was taken up at the moment `taken`, in milliseconds. It came from `address` and `port`, by `via`.
/// Its translation was last sent over the link numbered `link` with the Hop-by-Hop Identifier `number`.
#[derive(Drop)]
pub struct Entry {
    pub via: Via,
    pub address: u32,
    pub port: u16,
    pub link: u64,
    pub number: u32,
    pub kept: Kept,
    pub taken: u64,
    pub answer: Answer,
}

/// What the table has of a datagram: no live entry, or what became of it. `Kept` lends the reply.
#[derive(Clone, Copy)]
pub enum Found<'a> {
    New,
    Waiting,
    Silent,
    Kept(&'a [u8]),
}

impl Entry {
    /// A request that is taken up now.
    pub(crate) fn waiting(
        key: &Key,
        link: u64,
        number: u32,
        kept: Kept,
        sent: Octets,
        moment: u64,
    ) -> Entry
        ensures { result ≡ parts.new_entry key.now link number kept sent moment }
    {
        Entry {
            via: key.via,
            address: key.address,
            port: key.port,
            link,
            number,
            kept,
            taken: moment,
            answer: Answer::Waiting { sent },
        }
    }

    /// Whether it lives at this moment.
    pub(crate) fn is_live(&self, patience: u64, retention: u64, moment: u64) -> bool
        ensures { result ≡ parts.is_live patience retention moment self.now }
    {
        let (from, time) = match &self.answer {
            Answer::Waiting { .. } => (self.taken, patience),
            Answer::Silent { at } => (*at, retention),
            Answer::Replied { at, .. } => (*at, retention),
        };
        lasts(from, time, moment)
    }

    /// Whether it has no answer yet.
    pub(crate) fn is_waiting(&self) -> bool
        ensures { result ≡ parts.is_waiting self.now.answer }
    {
        matches!(self.answer, Answer::Waiting { .. })
    }

    /// Whether it lives at this moment and has no answer yet.
    pub(crate) fn is_live_waiting(&self, patience: u64, retention: u64, moment: u64) -> bool
        ensures { result ≡ parts.is_live_waiting patience retention moment self.now }
    {
        self.is_live(patience, retention, moment) && self.is_waiting()
    }

    /// Whether its translation was last sent over this link with this number.
    pub(crate) fn has_number(&self, link: u64, number: u32) -> bool
        ensures { result ≡ parts.has_number link number self.now }
    {
        self.link == link && self.number == number
    }

    /// What it sent, while it waits.
    pub(crate) fn sent(&self) -> Option<&Octets>
        ensures { option_copied result ≡ parts.sent_of self.now.answer }
    {
        match &self.answer {
            Answer::Waiting { sent } => Some(sent),
            Answer::Silent { .. } => None,
            Answer::Replied { .. } => None,
        }
    }

    /// What a look tells of it.
    pub(crate) fn found(&self) -> Found<'_>
        ensures { parts.told_by result ≡ parts.told_of self.now.answer }
    {
        match &self.answer {
            Answer::Waiting { .. } => Found::Waiting,
            Answer::Silent { .. } => Found::Silent,
            Answer::Replied { reply, .. } => Found::Kept(reply.as_slice()),
        }
    }
}

impl Answer {
    /// A reply or silence, given at this moment.
    pub(crate) fn given(moment: u64, reply: Option<Octets>) -> Answer
        ensures { result ≡ parts.answer_of moment reply }
    {
        match reply {
            None => Answer::Silent { at: moment },
            Some(reply) => Answer::Replied { at: moment, reply },
        }
    }
}

/// Whether what began at `from` and lasts for `time` still lasts at this moment.
pub(crate) fn lasts(from: u64, time: u64, moment: u64) -> bool
    ensures { result ≡ nat_lt moment (from + time) }
{
    match from.checked_add(time) {
        Some(end) => moment < end,
        None => true,
    }
}
