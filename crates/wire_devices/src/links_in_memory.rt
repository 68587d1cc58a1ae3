//! The two ends of a link over memory.

ghost use Rattle.std.specs.Prelude.{◌≡◌, ◌+◌, ◌≤◌, ◌++◌, Some, drop, length, slice_get, option_map, vec_capacity, if◌then◌else◌, IfSome, IsSome};
ghost use Rattle.wire_devices.specs.Telling.{Adds};
ghost use Rattle.wire_devices.specs.Links.{Hears, Speaks};
ghost use Rattle.wire_devices.specs.Forms.{is_due, next_call, is_quiet, next_got, told_of_stream, fresh_stream, told_of_planned_stream, planned_stream, fresh_wall, told_of_wall, planned_wall, told_of_planned_wall};

use crate::devices::{LinkGot, LinkIn, LinkOut};
use crate::plans::{CallPlan, counted_on, next_look};
use std::collections::VecDeque;
use std::marker::Model;
use wire_core::Put;

/// The end of a link over memory that octets come from, which never fails.
#[derive(Drop)]
pub struct SteadyLinkIn {
    octets: Vec<u8>,
    place: usize,
    looks: VecDeque<usize>,
    idle: Option<u64>,
    ends: u64,
    /// Which of a dialer's links it is.
    number: Option<u64>,
}

impl Model for SteadyLinkIn {
    ghost use Rattle.std.specs.Prelude.{◌≤◌, take, drop, length};
    ghost use Rattle.wire_devices.specs.Forms.{Stream};

    ghost Value = { Stream };

    ghost view = { λ s. record {
      received = take s.place s.octets.items;
      left = drop s.place s.octets.items;
      looks = s.looks.items;
      idle = s.idle;
      ends = s.ends;
      number = s.number;
    } };

    ghost invariant = { λ s. s.place ≤ length s.octets.items };
}

impl SteadyLinkIn {
    /// An end that gives these octets. Each of the looks gives so many of them at most; a look of 0 finds nothing there.
    /// After the looks that are listed each one finds all that is left. An empty buffer takes `Bytes(0)`.
    pub fn new(octets: Vec<u8>, looks: VecDeque<usize>) -> SteadyLinkIn
        ensures { result ≡ fresh_stream octets.items looks.items }
    {
        SteadyLinkIn {
            octets,
            place: 0,
            looks,
            idle: Some(0),
            ends: 0,
            number: None,
        }
    }

    /// The same end, as that of a dialer's link, counted from 0.
    pub(crate) fn numbered(mut self, number: u64) -> SteadyLinkIn
        ensures { result ≡ record self { number = Some number } }
    {
        self.number = Some(number);
        self
    }
}

impl LinkIn for SteadyLinkIn {
    ghost told = { λ s. told_of_stream s 0 };

    fn receive(&mut self, buf: &mut [u8]) -> LinkGot
        ensures answer { result
            ≡ next_got (slice_get self.old.looks 0) self.old.left (length buf.old) }
        ensures looks { self.new.looks ≡ drop 1 self.old.looks }
        ensures hears { Hears result (told_of_stream self.old 0) (told_of_stream self.new 0)
            buf.new }
    {
        let look = next_look(&mut self.looks);
        if is_quiet(look) {
            self.idle = counted_on(self.idle);
            return LinkGot::Nothing;
        }
        let rest = self.octets.len() - self.place;
        if rest == 0 {
            self.ends = self.ends.saturating_add(1);
            return LinkGot::Ended;
        }
        if buf.is_empty() {
            self.ends = self.ends.saturating_add(1);
            return LinkGot::Bytes(0);
        }
        let count = look.unwrap_or(rest).min(rest).min(buf.len());
        let start = self.place;
        buf[..count].copy_from_slice(&self.octets[start..start + count]);
        self.place += count;
        LinkGot::Bytes(count)
    }
}

/// Whether a look finds nothing, though something may be left.
fn is_quiet(look: Option<usize>) -> bool
    ensures { result ≡ is_quiet look }
{
    match look {
        Some(most) => most == 0,
        None => false,
    }
}

/// The end of a link over memory that octets come from, some of whose receives fail.
#[derive(Drop)]
pub struct MemoryLinkIn {
    link: SteadyLinkIn,
    receives: CallPlan,
    faults: u64,
}

impl Model for MemoryLinkIn {
    ghost use Rattle.wire_devices.specs.Forms.{PlannedStream};

    ghost Value = { PlannedStream };

    ghost view = { λ s. record { stream = s.link; receives = s.receives; faults = s.faults } };
}

impl MemoryLinkIn {
    /// An end as that of `SteadyLinkIn::new`. The receives whose numbers are in `failing`, counted from 0, fail, and take
    /// no look.
    pub fn new(octets: Vec<u8>, looks: VecDeque<usize>, failing: Vec<usize>) -> MemoryLinkIn
        ensures { result ≡ planned_stream octets.items looks.items failing.items }
    {
        MemoryLinkIn {
            link: SteadyLinkIn::new(octets, looks),
            receives: CallPlan::new(failing),
            faults: 0,
        }
    }

    /// The same end, as that of a dialer's link, counted from 0.
    pub(crate) fn numbered(mut self, number: u64) -> MemoryLinkIn
        ensures { result ≡ record self { stream = record self.stream { number = Some number } } }
    {
        self.link = self.link.numbered(number);
        self
    }
}

impl LinkIn for MemoryLinkIn {
    ghost told = { told_of_planned_stream };

    fn receive(&mut self, buf: &mut [u8]) -> LinkGot
        ensures answer { result ≡ (if is_due self.old.receives then LinkGot.Failed else next_got
            (slice_get self.old.stream.looks 0) self.old.stream.left (length buf.old)) }
        ensures looks { self.new.stream.looks ≡ (if is_due self.old.receives then
            self.old.stream.looks else drop 1 self.old.stream.looks) }
        ensures plan { self.new.receives ≡ next_call self.old.receives }
        ensures hears { Hears result (told_of_planned_stream self.old)
            (told_of_planned_stream self.new) buf.new }
    {
        if self.receives.fails() {
            self.faults = self.faults.saturating_add(1);
            return LinkGot::Failed;
        }
        self.link.receive(buf)
    }
}

/// The end of a link over memory that octets go to, which never fails. It keeps what it is handed, and tells it as long
/// as it has room, or memory for more.
#[derive(Drop)]
pub struct SteadyLinkOut {
    octets: Vec<u8>,
    is_told: bool,
}

impl Model for SteadyLinkOut {
    ghost use Rattle.std.specs.Prelude.{Some, None, if◌then◌else◌, vec_capacity};
    ghost use Rattle.wire_devices.specs.Forms.{Wall};

    ghost Value = { Wall };

    ghost view = { λ s. record { handed = (if s.is_told then Some s.octets.items else None); room = vec_capacity s.octets } };
}

impl SteadyLinkOut {
    /// An end that keeps what it is handed in the room of this vector, whose octets are dropped.
    pub fn new(room: Vec<u8>) -> SteadyLinkOut
        ensures { result ≡ fresh_wall (vec_capacity room) }
    {
        let mut octets = room;
        octets.clear();
        SteadyLinkOut {
            octets,
            is_told: true,
        }
    }

    /// What it was handed, where it is told.
    pub fn handed(&self) -> Option<&[u8]>
        ensures { option_map (λ s. s.now) result ≡ self.now.handed }
    {
        if self.is_told {
            Some(self.octets.as_slice())
        } else {
            None
        }
    }

    /// Keeps these octets too, where there is room.
    fn keep(&mut self, octets: &[u8])
        ensures told { IfSome self.old.handed (λ xs. length xs + length octets.now ≤ self.old.room
            → self.new.handed ≡ Some (xs ++ octets.now)) }
        ensures room { self.old.room ≤ self.new.room }
        ensures adds { Adds self.old.handed self.new.handed octets.now }
    {
        let is_kept = self.octets.extend_from_slice(octets).is_ok();
        self.is_told = self.is_told && is_kept;
    }
}

impl LinkOut for SteadyLinkOut {
    ghost told = { λ s. told_of_wall s 0 };

    fn send(&mut self, octets: &[u8]) -> Put
        ensures done { result ≡ Put.Done }
        ensures told { IfSome self.old.handed (λ xs. length xs + length octets.now ≤ self.old.room
            → self.new.handed ≡ Some (xs ++ octets.now)) }
        ensures room { self.old.room ≤ self.new.room }
        ensures speaks { Speaks result (told_of_wall self.old 0) (told_of_wall self.new 0)
            octets.now }
    {
        self.keep(octets);
        Put::Done
    }

    fn rest(&mut self)
        ensures same { self.new ≡ self.old }
        ensures rests { told_of_wall self.new 0 ≡ told_of_wall self.old 0 }
    {}

    fn close(&mut self)
        ensures same { self.new ≡ self.old }
        ensures closes { told_of_wall self.new 0 ≡ told_of_wall self.old 0 }
    {}
}

/// The end of a link over memory that octets go to, some of whose sends fail. Such a send takes the first half.
#[derive(Drop)]
pub struct MemoryLinkOut {
    link: SteadyLinkOut,
    sends: CallPlan,
    faults: u64,
}

impl Model for MemoryLinkOut {
    ghost use Rattle.wire_devices.specs.Forms.{PlannedWall};

    ghost Value = { PlannedWall };

    ghost view = { λ s. record { wall = s.link; sends = s.sends; faults = s.faults } };
}

impl MemoryLinkOut {
    /// An end as that of `SteadyLinkOut::new`. The sends whose numbers are in `failing`, counted from 0, fail.
    pub fn new(room: Vec<u8>, failing: Vec<usize>) -> MemoryLinkOut
        ensures { result ≡ planned_wall (vec_capacity room) failing.items }
    {
        MemoryLinkOut {
            link: SteadyLinkOut::new(room),
            sends: CallPlan::new(failing),
            faults: 0,
        }
    }

    /// What it was handed, where it is told.
    pub fn handed(&self) -> Option<&[u8]>
        ensures { option_map (λ s. s.now) result ≡ self.now.wall.handed }
    {
        self.link.handed()
    }
}

impl LinkOut for MemoryLinkOut {
    ghost told = { told_of_planned_wall };

    fn send(&mut self, octets: &[u8]) -> Put
        ensures answer { result ≡ (if is_due self.old.sends then Put.Failed else Put.Done) }
        ensures told { IfSome self.old.wall.handed (λ xs. length xs + length octets.now
            ≤ self.old.wall.room → IsSome self.new.wall.handed) }
        ensures room { self.old.wall.room ≤ self.new.wall.room }
        ensures plan { self.new.sends ≡ next_call self.old.sends }
        ensures speaks { Speaks result (told_of_planned_wall self.old)
            (told_of_planned_wall self.new) octets.now }
    {
        if self.sends.fails() {
            self.faults = self.faults.saturating_add(1);
            self.link.keep(&octets[..octets.len() / 2]);
            return Put::Failed;
        }
        self.link.keep(octets);
        Put::Done
    }

    fn rest(&mut self)
        ensures same { self.new ≡ self.old }
        ensures rests { told_of_planned_wall self.new ≡ told_of_planned_wall self.old }
    {}

    fn close(&mut self)
        ensures same { self.new ≡ self.old }
        ensures closes { told_of_planned_wall self.new ≡ told_of_planned_wall self.old }
    {}
}
