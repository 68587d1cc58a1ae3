//! Sockets over memory.

ghost use Rattle.std.specs.Prelude.{◌≡◌, [], ◌∷◌, ◌++◌, drop, length, min, option_map, if◌then◌else◌, IfOk, IfSome, IsNone};
ghost use Rattle.wire_devices.specs.Telling.{Adds};
ghost use Rattle.wire_devices.specs.Sockets.{datagram, Receives, Sends, Twinned, IsFreshSocket};
ghost use Rattle.wire_devices.specs.Forms.{is_due, next_call, next_find, next_took, overlaid, filled, fresh_post, told_of_post, planned_post, told_of_planned_post};

use crate::devices::{Datagram, Datagrams, Took};
use crate::plans::{CallPlan, counted_on, next_look};
use std::alloc::Global;
use std::collections::VecDeque;
use std::marker::Model;
use wire_core::{NoMemory, Octets, Put};

/// A socket over memory that never fails. It keeps what it received and what it was handed, and tells each of them as
/// long as there is memory to keep it.
#[derive(Drop)]
pub struct SteadyDatagrams {
    alloc: Global,
    looks: VecDeque<Option<Datagram>>,
    received: Option<Vec<Datagram>>,
    handed: Option<Vec<Datagram>>,
    idle: Option<u64>,
}

impl Model for SteadyDatagrams {
    ghost use Rattle.std.specs.Prelude.{option_map};
    ghost use Rattle.wire_devices.specs.Forms.{Post};

    ghost Value = { Post };

    ghost view = { λ s. record {
      looks = s.looks.items;
      received = option_map (λ v. v.items) s.received;
      handed = option_map (λ v. v.items) s.handed;
      idle = s.idle;
    } };
}

impl SteadyDatagrams {
    /// A socket whose looks find these datagrams in turn, nothing where there is None, and nothing after them.
    pub fn new(alloc: Global, looks: VecDeque<Option<Datagram>>) -> SteadyDatagrams
        ensures { result ≡ fresh_post looks.items }
    {
        SteadyDatagrams {
            alloc,
            looks,
            received: Some(Vec::new(alloc)),
            handed: Some(Vec::new(alloc)),
            idle: Some(0),
        }
    }

    /// What `send` was handed, where it is told.
    pub fn handed(&self) -> Option<&[Datagram]>
        ensures { option_map (λ s. s.now) result ≡ self.now.handed }
    {
        match &self.handed {
            Some(handed) => Some(handed.as_slice()),
            None => None,
        }
    }

    /// Keeps what `send` was handed.
    fn hand(&mut self, address: u32, port: u16, octets: &[u8])
        ensures handed { Adds self.old.handed self.new.handed
            (datagram address port octets.now ∷ []) }
        ensures same { self.new ≡ record self.old { handed = self.new.handed } }
    {
        self.handed = keep(self.alloc, self.handed.take(), address, port, octets);
    }
}

impl Datagrams for SteadyDatagrams {
    ghost told = { λ s. told_of_post s 0 0 };

    fn receive(&mut self, buf: &mut [u8]) -> Took
        ensures answer { result ≡ next_took (next_find self.old.looks) (length buf.old) }
        ensures filled { buf.new ≡ filled (next_find self.old.looks) buf.old }
        ensures looks { self.new.looks ≡ drop 1 self.old.looks }
        ensures receives { Receives result (told_of_post self.old 0 0) (told_of_post self.new 0 0)
            buf.new }
    {
        match next_look(&mut self.looks).flatten() {
            Some(datagram) => {
                let length = fill(buf, datagram.octets.as_slice());
                let (address, port) = (datagram.address, datagram.port);
                self.received = keep(
                    self.alloc,
                    self.received.take(),
                    address,
                    port,
                    &buf[..length],
                );
                Took::From {
                    address,
                    port,
                    length,
                }
            }
            None => {
                self.idle = counted_on(self.idle);
                Took::Nothing
            }
        }
    }

    fn send(&mut self, address: u32, port: u16, octets: &[u8]) -> Put
        ensures done { result ≡ Put.Done }
        ensures looks { self.new.looks ≡ self.old.looks }
        ensures sends { Sends result (told_of_post self.old 0 0) (told_of_post self.new 0 0)
            (datagram address port octets.now) }
    {
        self.hand(address, port, octets);
        Put::Done
    }

    fn twin(&mut self) -> Option<SteadyDatagrams>
        ensures twin { result ≡ Some (fresh_post []) }
        ensures same { self.new ≡ self.old }
        ensures fresh { IfSome result (λ twin. IsFreshSocket (told_of_post twin 0 0)) }
        ensures port { IfSome result
            (λ twin. (told_of_post twin 0 0).port ≡ (told_of_post self.old 0 0).port) }
        ensures twinned { Twinned (IsNone result) (told_of_post self.old 0 0)
            (told_of_post self.new 0 0) }
    {
        Some(SteadyDatagrams::new(self.alloc, VecDeque::new(self.alloc)))
    }
}

/// Puts these octets at the front of the buffer, as many as fit, and tells how many.
fn fill(buf: &mut [u8], octets: &[u8]) -> usize
    ensures length { result ≡ min (length octets.now) (length buf.old) }
    ensures filled { buf.new ≡ overlaid octets.now buf.old }
{
    let length = octets.len().min(buf.len());
    buf[..length].copy_from_slice(&octets[..length]);
    length
}

/// What was kept with one datagram more, as long as there is memory for it.
fn keep(
    alloc: Global,
    kept: Option<Vec<Datagram>>,
    address: u32,
    port: u16,
    octets: &[u8],
) -> Option<Vec<Datagram>>
    ensures { Adds (option_map (λ v. v.items) kept) (option_map (λ v. v.items) result)
        (datagram address port octets.now ∷ []) }
{
    match with_one_more(alloc, kept?, address, port, octets) {
        Ok(longer) => Some(longer),
        Err(_) => None,
    }
}

fn with_one_more(
    alloc: Global,
    mut list: Vec<Datagram>,
    address: u32,
    port: u16,
    octets: &[u8],
) -> Result<Vec<Datagram>, NoMemory>
    ensures { IfOk result (λ v. v.items ≡ list.items ++ datagram address port octets.now ∷ []) }
{
    let octets = Octets::copy(alloc, octets)?;
    list.push(Datagram {
        address,
        port,
        octets,
    })?;
    Ok(list)
}

/// A socket over memory, some of whose calls fail.
#[derive(Drop)]
pub struct MemoryDatagrams {
    socket: SteadyDatagrams,
    receives: CallPlan,
    sends: CallPlan,
    twins: CallPlan,
    faults: u64,
    row: u8,
}

impl Model for MemoryDatagrams {
    ghost use Rattle.std.specs.Prelude.{◌≤◌};
    ghost use Rattle.wire_devices.specs.Forms.{PlannedPost};

    ghost Value = { PlannedPost };

    ghost view = { λ s. record {
      post = s.socket;
      receives = s.receives;
      sends = s.sends;
      twins = s.twins;
      faults = s.faults;
      row = s.row;
    } };

    ghost invariant = { λ s. s.row ≤ 16 };
}

impl MemoryDatagrams {
    /// A socket whose looks find these datagrams in turn, nothing where there is None, and nothing after them. The calls
    /// whose numbers are listed, counted from 0 for each kind of call, fail. A look that fails finds nothing and takes
    /// nothing off the list.
    pub fn new(
        alloc: Global,
        looks: VecDeque<Option<Datagram>>,
        failing_receives: Vec<usize>,
        failing_sends: Vec<usize>,
        refused_twins: Vec<usize>,
    ) -> MemoryDatagrams
        ensures { result ≡ planned_post looks.items failing_receives.items failing_sends.items
            refused_twins.items }
    {
        MemoryDatagrams {
            socket: SteadyDatagrams::new(alloc, looks),
            receives: CallPlan::new(failing_receives),
            sends: CallPlan::new(failing_sends),
            twins: CallPlan::new(refused_twins),
            faults: 0,
            row: 0,
        }
    }

    /// What `send` was handed, where it is told.
    pub fn handed(&self) -> Option<&[Datagram]>
        ensures { option_map (λ s. s.now) result ≡ self.now.post.handed }
    {
        self.socket.handed()
    }
}

impl Datagrams for MemoryDatagrams {
    ghost told = { told_of_planned_post };

    fn receive(&mut self, buf: &mut [u8]) -> Took
        ensures answer { result ≡ (if is_due self.old.receives then Took.Failed else next_took
            (next_find self.old.post.looks) (length buf.old)) }
        ensures filled { buf.new ≡ (if is_due self.old.receives then buf.old else filled
            (next_find self.old.post.looks) buf.old) }
        ensures looks { self.new.post.looks ≡
            (if is_due self.old.receives then self.old.post.looks else drop 1 self.old.post.looks) }
        ensures plans { (self.new.receives ≡ next_call self.old.receives)
            × (self.new.sends ≡ self.old.sends) × (self.new.twins ≡ self.old.twins) }
        ensures receives { Receives result (told_of_planned_post self.old)
            (told_of_planned_post self.new) buf.new }
    {
        if self.receives.fails() {
            self.faults = self.faults.saturating_add(1);
            self.row = self.row.saturating_add(1).min(16);
            return Took::Failed;
        }
        self.row = 0;
        self.socket.receive(buf)
    }

    fn send(&mut self, address: u32, port: u16, octets: &[u8]) -> Put
        ensures answer { result ≡ (if is_due self.old.sends then Put.Failed else Put.Done) }
        ensures looks { self.new.post.looks ≡ self.old.post.looks }
        ensures plans { (self.new.receives ≡ self.old.receives)
            × (self.new.sends ≡ next_call self.old.sends) × (self.new.twins ≡ self.old.twins) }
        ensures sends { Sends result (told_of_planned_post self.old) (told_of_planned_post self.new)
            (datagram address port octets.now) }
    {
        self.socket.hand(address, port, octets);
        if self.sends.fails() {
            self.faults = self.faults.saturating_add(1);
            return Put::Failed;
        }
        Put::Done
    }

    fn twin(&mut self) -> Option<MemoryDatagrams>
        ensures twin { result
            ≡ (if is_due self.old.twins then None else Some (planned_post [] [] [] [])) }
        ensures post { self.new.post ≡ self.old.post }
        ensures plans { (self.new.receives ≡ self.old.receives) × (self.new.sends ≡ self.old.sends)
            × (self.new.twins ≡ next_call self.old.twins) }
        ensures fresh { IfSome result (λ twin. IsFreshSocket (told_of_planned_post twin)) }
        ensures port { IfSome result
            (λ twin. (told_of_planned_post twin).port ≡ (told_of_planned_post self.old).port) }
        ensures twinned { Twinned (IsNone result) (told_of_planned_post self.old)
            (told_of_planned_post self.new) }
    {
        if self.twins.fails() {
            self.faults = self.faults.saturating_add(1);
            return None;
        }
        let alloc = self.socket.alloc;
        Some(MemoryDatagrams::new(
            alloc,
            VecDeque::new(alloc),
            Vec::new(alloc),
            Vec::new(alloc),
            Vec::new(alloc),
        ))
    }
}
