//! Tables in the hands of a caller whose moments don't go back and whose links are new ones.

use pending_table::{Found, Key, Table};
use radius_packet::Via;
use session_carrier::{Kept, Kind2};
use std::alloc::Global;
use std::hash::RandomState;
use std::marker::Model;
use std::process::Abort;
use std::test::Fail;
use wire_core::{NoMemory, Octets};

/// A table, with the moment of its last change and the last link that it was told of.
#[derive(Drop)]
struct Caller {
    alloc: Global,
    table: Table,
    moment: u64,
    link: u64,
}

impl Model for Caller {
    ghost use Rattle.std.specs.Prelude.{◌≤◌, All, List};
    ghost use Rattle.pending_table.specs.Table.{Row, IsBy};

    ghost Value = { List Row };

    ghost view = { λ c. c.table.entries };

    ghost invariant = { λ c. All (λ r. IsBy c.moment r.1 × (r.1.link ≤ c.link)) c.table.entries };
}

impl Caller {
    fn new(alloc: Global, random: RandomState, capacity: u32) -> Result<Caller, NoMemory> {
        let table = Table::new(alloc, random, capacity, 1000, 1000)?;
        Ok(Caller {
            alloc,
            table,
            moment: 0,
            link: 0,
        })
    }

    /// Time goes on to this moment.
    fn wait_until(&mut self, moment: u64) {
        self.moment = self.moment.max(moment);
    }

    /// A request from this port is taken up over a new link, if the table may: whether it was.
    fn admit(&mut self, port: u16, number: u32, id: u8) -> Result<bool, NoMemory> {
        let key = key(self.alloc, port)?;
        let Some(link) = self.link.checked_add(1) else {
            return Ok(false);
        };
        if self.table.is_full(self.moment) {
            return Ok(false);
        }
        let Found::New = self.table.look(&key, self.moment) else {
            return Ok(false);
        };
        let kept = kept(self.alloc, id)?;
        let sent = Octets::copy(self.alloc, &[id])?;
        self.table
            .admit(key, link, number, kept, sent, self.moment)?;
        self.link = link;
        Ok(true)
    }

    /// The request that waits for this answer gets this reply, if there is one: whether there is.
    fn settle(&mut self, link: u64, number: u32, reply: &[u8]) -> Result<bool, NoMemory> {
        let reply = Octets::copy(self.alloc, reply)?;
        if self.table.find(link, number, self.moment).is_none() {
            return Ok(false);
        }
        self.table.settle(link, number, self.moment, Some(reply));
        Ok(true)
    }

    /// What waits is sent again over a new link.
    fn relink(&mut self) {
        if let Some(link) = self.link.checked_add(1) {
            self.table.relink(link, self.moment);
            self.link = link;
        }
    }

    /// The dead ones are dropped.
    fn purge(&mut self, moment: u64) {
        self.table.purge(moment);
    }

    /// How many live and how many of them wait.
    fn counts(&self, moment: u64) -> (u32, u32) {
        (self.table.len(moment), self.table.waiting(moment))
    }

    /// The identifier of the request that waits for this answer.
    fn awaiting(&self, link: u64, number: u32) -> Option<u8> {
        self.table
            .find(link, number, self.moment)
            .map(|entry| entry.kept.id)
    }

    /// What the k-th of those that wait sent, which is one octet.
    fn sent_at(&self, k: u32) -> Option<u8> {
        self.table
            .sent_at(k, self.moment)
            .and_then(|sent| sent.as_slice().first().copied())
    }

    /// What those that wait sent, one digit each, in the order in which a pass gives it.
    fn sends(&self) -> u32 {
        let mut digits: u32 = 0;
        for sent in self.table.sends(self.moment) {
            let digit = sent.as_slice().first().copied().unwrap_or(0);
            digits = digits.wrapping_mul(10).wrapping_add(u32::from(digit));
        }
        digits
    }

    /// Whether the request from this port has this reply.
    fn is_kept(&self, port: u16, reply: &[u8]) -> Result<bool, NoMemory> {
        match self.table.look(&key(self.alloc, port)?, self.moment) {
            Found::Kept(octets) => Ok(octets == reply),
            Found::New | Found::Waiting | Found::Silent => Ok(false),
        }
    }
}

/// A key for each port.
fn key(alloc: Global, port: u16) -> Result<Key, NoMemory> {
    Ok(Key {
        via: Via::Auth,
        address: 0xc0a8_0110,
        port,
        octets: Octets::copy(alloc, b"\x01\x00\x00\x14")?,
    })
}

fn kept(alloc: Global, id: u8) -> Result<Kept, NoMemory> {
    Ok(Kept {
        kind: Kind2::Access,
        client: 0,
        id,
        authenticator: [0; 16],
        proxy: Octets::copy(alloc, b"")?,
        session: Octets::copy(alloc, b"nas.example;1;2")?,
        realm: Octets::copy(alloc, b"example")?,
        cause: 0,
    })
}

/// Two requests are taken up and wait.
fn takes_two(rt: &impl Abort, caller: &mut Caller) -> Result<(), Fail> {
    assert!(rt; caller.admit(1, 9, 7)?);
    caller.wait_until(500);
    assert!(rt; caller.admit(2, 9, 8)?);
    assert!(rt; !caller.admit(2, 9, 8)?);
    assert!(rt; caller.counts(999) == (2, 2) && caller.counts(1000) == (1, 1));
    assert!(rt; caller.sends() == 78 && caller.sent_at(1) == Some(8));
    Ok(())
}

/// The first one is answered, the other is sent again, and both die.
fn settles_and_drops(rt: &impl Abort, caller: &mut Caller) -> Result<(), Fail> {
    assert!(rt; caller.settle(1, 9, b"reply")? && !caller.settle(1, 9, b"other")?);
    assert!(rt; caller.is_kept(1, b"reply")?);
    caller.relink();
    assert!(rt; caller.awaiting(3, 0) == Some(8) && caller.awaiting(2, 9) == None);
    caller.purge(1500);
    assert!(rt; caller.counts(0) == (0, 0));
    Ok(())
}

fn walk(rt: &impl Abort, caller: &mut Caller) -> Result<(), Fail> {
    takes_two(rt, caller)?;
    settles_and_drops(rt, caller)
}

#[test]
fn a_table_takes_settles_and_drops(rt: HostRuntime) -> Result<(), Fail> {
    let mut caller = Caller::new(rt.alloc(), RandomState::new(&rt)?, 3)?;
    let walked = walk(&rt, &mut caller);
    drop(caller);
    walked
}

/// A second request is taken up when the first one is dead, or refused since an allocation fails.
fn walk_to_refusal(rt: &impl Abort, caller: &mut Caller) -> Result<(), Fail> {
    assert!(rt; caller.admit(1, 0, 7)?);
    caller.wait_until(1000);
    let is_refused = caller.admit(2, 0, 8).is_err();
    // The first one is dead by then, and is dropped only where the second one is taken up.
    let first = caller.table.find(1, 0, 999).is_some();
    let second = caller.table.find(2, 0, 1000).is_some();
    assert!(rt; first == is_refused && second != is_refused);
    assert!(rt; caller.table.len(999) == 1);
    Ok(())
}

/// An allocation that fails while the second request is taken up is met here.
#[test]
fn a_refused_request_leaves_what_was_there(rt: HostRuntime) -> Result<(), Fail> {
    let mut caller = Caller::new(rt.alloc(), RandomState::new(&rt)?, 1)?;
    let walked = walk_to_refusal(&rt, &mut caller);
    drop(caller);
    walked
}
