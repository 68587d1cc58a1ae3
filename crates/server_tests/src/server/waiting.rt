//! Devices that wait for one another, so that what a run comes to is the same in whatever order its threads go.

ghost use Rattle.std.specs.Prelude.{◌≡◌, ◌≤◌, length, None};
ghost use Rattle.wire_devices.specs.Dialling.{no_dials};
ghost use Rattle.wire_devices.specs.Forms.{told_of_counts, told_of_ends};
ghost use Rattle.wire_devices.specs.Sockets.{Fits};
ghost use Rattle.wire_devices.specs.Links.{Within};

use std::alloc::Global;
use std::collections::VecDeque;
use std::marker::Model;
use std::sync::Arc;
use std::sync::atomic::{AtomicU64, Ordering};
use std::time::Duration;
use std::{mem, thread};
use wire_core::{Octets, Put};
use wire_devices::{Clock, Datagram, Datagrams, Dialer, LinkGot, LinkIn, LinkOut, Took};

/// The moment at which a run ends.
pub(super) const UNTIL: u64 = 100;

/// Raised where a look that insists was in vain.
pub(super) const IN_VAIN: u64 = 1 << 63;

/// So often the clock is read at most before the run ends, whatever has happened.
const MOST_READINGS: u32 = 1_000_000;

/// So often a look that insists looks, and after so many it naps.
const MOST_LOOKS: u32 = 10_000_000;

const LOOKS: u32 = 1_000;

/// What has happened in a run, as the bits of a word that all its devices share.
pub(super) type Word = Arc<AtomicU64, Global>;

fn has(word: &Word, bits: u64) -> bool {
    word.load(Ordering::SeqCst) & bits == bits
}

fn raise(word: &Word, bits: u64) {
    word.fetch_or(bits, Ordering::SeqCst);
}

/// The bits that a call with this number raises.
fn raise_next(word: &Word, bits: &[u64], call: usize) {
    raise(word, bits.get(call).copied().unwrap_or(0));
}

fn nap(rt: &HostRuntime) {
    thread::sleep(rt, Duration::from_micros(50));
}

/// Puts these octets at the front of the buffer, as many as fit, and tells how many.
fn fill(buf: &mut [u8], octets: &[u8]) -> usize
    ensures { result ≤ length buf.new }
{
    let length = octets.len().min(buf.len());
    buf[..length].copy_from_slice(&octets[..length]);
    length
}

/// A clock at 0 until the last bits are raised, and at the end of the run from then on.
#[derive(Drop)]
pub(super) struct WaitingClock {
    word: Word,
    last: u64,
    readings: u32,
}

impl WaitingClock {
    pub(super) fn new(word: Word, last: u64) -> WaitingClock {
        WaitingClock {
            word,
            last,
            readings: MOST_READINGS,
        }
    }
}

impl Clock for WaitingClock {
    ghost readings = { λ _. None };

    fn now(&mut self) -> u64 {
        if self.readings == 0 || has(&self.word, self.last) {
            return UNTIL;
        }
        self.readings -= 1;
        0
    }
}

/// A datagram that comes once these bits are raised. A look that insists waits for them.
#[derive(Drop)]
pub(super) struct Find {
    pub after: u64,
    pub insists: bool,
    pub datagram: Datagram,
}

/// What a socket finds, how many receives fail before, what its first sends raise, and the same of its twin, of which so
/// many sends fail.
#[derive(Drop)]
pub(super) struct Post {
    pub finds: Vec<Find>,
    pub failing_receives: u32,
    pub raises: Vec<u64>,
    pub twin_raises: Vec<u64>,
    pub failing_sends: u32,
}

impl Post {
    /// A socket at which nothing comes.
    pub(super) fn quiet(alloc: Global) -> Post {
        Post {
            finds: Vec::new(alloc),
            failing_receives: 0,
            raises: Vec::new(alloc),
            twin_raises: Vec::new(alloc),
            failing_sends: 0,
        }
    }
}

/// A socket that keeps what it was handed.
#[derive(Drop)]
pub(super) struct WaitingSocket {
    rt: HostRuntime,
    word: Word,
    finds: Vec<Find>,
    place: usize,
    failing_receives: u32,
    failing_sends: u32,
    raises: Vec<u64>,
    /// What a twin is made of.
    twin_raises: Vec<u64>,
    failing_twin_sends: u32,
    handed: Vec<Datagram>,
    faults: u64,
    row: u8,
}

impl Model for WaitingSocket {
    ghost use Rattle.std.specs.Prelude.{◌≤◌};
    ghost use Rattle.wire_devices.specs.Dialling.{Dials};

    ghost Value = { Dials };

    ghost view = { λ s. record { faults = s.faults; row = s.row } };

    ghost invariant = { λ s. s.row ≤ 16 };
}

impl WaitingSocket {
    pub(super) fn new(rt: HostRuntime, word: Word, post: Post) -> WaitingSocket
        ensures { result ≡ record { faults = 0; row = 0 } }
    {
        let alloc = rt.alloc();
        WaitingSocket {
            rt,
            word,
            finds: post.finds,
            place: 0,
            failing_receives: post.failing_receives,
            failing_sends: 0,
            raises: post.raises,
            twin_raises: post.twin_raises,
            failing_twin_sends: post.failing_sends,
            handed: Vec::new(alloc),
            faults: 0,
            row: 0,
        }
    }

    pub(super) fn handed(&self) -> &[Datagram] {
        self.handed.as_slice()
    }

    pub(super) fn faults(&self) -> u64 {
        self.faults
    }
}

/// Whether the bits of a find are raised, for which a look that insists waits.
fn has_come(rt: &HostRuntime, word: &Word, find: &Find) -> bool {
    if !find.insists {
        return has(word, find.after);
    }
    for look in 0..MOST_LOOKS {
        if has(word, find.after) {
            return true;
        }
        if look % LOOKS == 0 {
            nap(rt);
        }
    }
    raise(word, IN_VAIN);
    false
}

/// What the next look finds. Where nothing is there it naps.
fn seek(rt: &HostRuntime, word: &Word, find: Option<&Find>, buf: &mut [u8]) -> Took
    ensures { Fits result (length buf.new) }
{
    match find {
        Some(find) if has_come(rt, word, find) => Took::From {
            address: find.datagram.address,
            port: find.datagram.port,
            length: fill(buf, find.datagram.octets.as_slice()),
        },
        _ => {
            nap(rt);
            Took::Nothing
        }
    }
}

impl Datagrams for WaitingSocket {
    ghost told = { told_of_counts };

    fn receive(&mut self, buf: &mut [u8]) -> Took {
        if self.failing_receives > 0 {
            self.failing_receives -= 1;
            self.faults = self.faults.saturating_add(1);
            self.row = self.row.saturating_add(1).min(16);
            return Took::Failed;
        }
        self.row = 0;
        let find = self.finds.as_slice().get(self.place);
        match seek(&self.rt, &self.word, find, buf) {
            Took::From {
                address,
                port,
                length,
            } => {
                self.place = self.place.saturating_add(1);
                Took::From {
                    address,
                    port,
                    length,
                }
            }
            _ => Took::Nothing,
        }
    }

    fn send(&mut self, address: u32, port: u16, octets: &[u8]) -> Put {
        let call = self.handed.len();
        if let Ok(octets) = Octets::copy(self.rt.alloc(), octets) {
            let _ = self.handed.push(Datagram {
                address,
                port,
                octets,
            });
        }
        raise_next(&self.word, self.raises.as_slice(), call);
        if self.failing_sends > 0 {
            self.failing_sends -= 1;
            self.faults = self.faults.saturating_add(1);
            return Put::Failed;
        }
        Put::Done
    }

    fn twin(&mut self) -> Option<WaitingSocket> {
        let alloc = self.rt.alloc();
        let Ok(word) = Arc::try_clone(&self.word) else {
            self.faults = self.faults.saturating_add(1);
            return None;
        };
        let mut twin = WaitingSocket::new(self.rt, word, Post::quiet(alloc));
        twin.raises = mem::replace(&mut self.twin_raises, Vec::new(alloc));
        twin.failing_sends = self.failing_twin_sends;
        Some(twin)
    }
}

/// What a look at a link finds.
#[derive(Drop)]
pub(super) enum Finds {
    Octets(Octets),
    End,
    Fault,
}

/// A look at a link that finds something once these bits are raised. The look that comes after it raises others, since what
/// was found was entered by then.
#[derive(Drop)]
pub(super) struct Look {
    pub after: u64,
    pub finds: Finds,
    pub raises: u64,
}

/// What a link's looks find, what its first sends raise, and how many of them fail.
#[derive(Drop)]
pub(super) struct Script {
    pub looks: Vec<Look>,
    pub raises: Vec<u64>,
    pub failing_sends: u32,
}

impl Script {
    /// A link on which nothing comes.
    pub(super) fn quiet(alloc: Global) -> Script {
        Script {
            looks: Vec::new(alloc),
            raises: Vec::new(alloc),
            failing_sends: 0,
        }
    }
}

/// The end of such a link that octets come from. After its looks nothing comes.
#[derive(Drop)]
pub(super) struct WaitingIn {
    rt: HostRuntime,
    word: Word,
    looks: Vec<Look>,
    place: usize,
    /// What the next look raises.
    owed: u64,
    faults: u64,
    ends: u64,
}

impl Model for WaitingIn {
    ghost use Rattle.std.specs.Prelude.{None};
    ghost use Rattle.wire_devices.specs.Forms.{EndCounts};

    ghost Value = { EndCounts };

    ghost view = { λ s. record { faults = s.faults; ends = s.ends; number = None } };
}

/// What a look finds, with what is owed then.
fn hear(word: &Word, look: Option<&Look>, buf: &mut [u8]) -> (LinkGot, u64)
    ensures { Within result.0 (length buf.new) }
{
    let Some(look) = look else {
        return (LinkGot::Nothing, 0);
    };
    if !has(word, look.after) {
        return (LinkGot::Nothing, 0);
    }
    let got = match &look.finds {
        Finds::Octets(octets) => {
            let count = fill(buf, octets.as_slice());
            if count > 0 {
                LinkGot::Bytes(count)
            } else {
                LinkGot::Nothing
            }
        }
        Finds::End => LinkGot::Ended,
        Finds::Fault => LinkGot::Failed,
    };
    (got, look.raises)
}

impl LinkIn for WaitingIn {
    ghost told = { told_of_ends };

    fn receive(&mut self, buf: &mut [u8]) -> LinkGot {
        raise(&self.word, self.owed);
        let look = self.looks.as_slice().get(self.place);
        let (got, owed) = hear(&self.word, look, buf);
        self.owed = owed;
        match got {
            LinkGot::Bytes(count) => {
                self.place = self.place.saturating_add(1);
                LinkGot::Bytes(count)
            }
            LinkGot::Nothing => {
                nap(&self.rt);
                LinkGot::Nothing
            }
            LinkGot::Ended => {
                self.ends = self.ends.saturating_add(1);
                LinkGot::Ended
            }
            LinkGot::Failed => {
                self.faults = self.faults.saturating_add(1);
                LinkGot::Failed
            }
        }
    }
}

/// The end of such a link that octets go to. It keeps each piece that it was handed.
#[derive(Drop)]
pub(super) struct WaitingOut {
    rt: HostRuntime,
    word: Word,
    raises: Vec<u64>,
    failing_sends: u32,
    sent: Vec<Octets>,
    faults: u64,
}

impl Model for WaitingOut {
    ghost use Rattle.std.specs.Prelude.{ℕ};

    ghost Value = { ℕ };

    ghost view = { λ s. s.faults };
}

impl WaitingOut {
    /// The piece with this number, counted from 0.
    pub(super) fn sent(&self, number: usize) -> Option<&Octets> {
        self.sent.as_slice().get(number)
    }

    /// All pieces.
    pub(super) fn pieces(&self) -> &[Octets] {
        self.sent.as_slice()
    }
}

impl LinkOut for WaitingOut {
    ghost told = { λ n. record { handed = None; faults = n } };

    fn send(&mut self, octets: &[u8]) -> Put {
        let call = self.sent.len();
        if let Ok(octets) = Octets::copy(self.rt.alloc(), octets) {
            let _ = self.sent.push(octets);
        }
        raise_next(&self.word, self.raises.as_slice(), call);
        if self.failing_sends > 0 {
            self.failing_sends -= 1;
            self.faults = self.faults.saturating_add(1);
            return Put::Failed;
        }
        Put::Done
    }

    fn rest(&mut self) {
        nap(&self.rt);
    }

    fn close(&mut self) {}
}

/// A dialer that makes these links in turn, and then such as nothing comes on.
#[derive(Drop)]
pub(super) struct WaitingDialer {
    rt: HostRuntime,
    word: Word,
    scripts: VecDeque<Script>,
    faults: u64,
    row: u8,
    made: u64,
}

impl Model for WaitingDialer {
    ghost use Rattle.std.specs.Prelude.{◌≤◌};
    ghost use Rattle.wire_devices.specs.Dialling.{DialCounts};

    ghost Value = { DialCounts };

    ghost view = { λ d. record { told = record { faults = d.faults; row = d.row }; made = d.made } };

    ghost invariant = { λ d. d.row ≤ 16 };
}

impl WaitingDialer {
    pub(super) fn new(rt: HostRuntime, word: Word, scripts: VecDeque<Script>) -> WaitingDialer
        ensures { result ≡ no_dials }
    {
        WaitingDialer {
            rt,
            word,
            scripts,
            faults: 0,
            row: 0,
            made: 0,
        }
    }

    /// A share of the word for each end of a link.
    fn words(&self) -> Option<(Word, Word)> {
        let first = Arc::try_clone(&self.word).ok()?;
        let second = Arc::try_clone(&self.word).ok()?;
        Some((first, second))
    }
}

impl Dialer for WaitingDialer {
    type In = WaitingIn;

    type Out = WaitingOut;

    ghost told = { λ d. d.told };

    ghost made = { λ d. d.made };

    fn dial(&mut self) -> Option<(WaitingIn, WaitingOut)> {
        let Some((heard, said)) = self.words() else {
            self.faults = self.faults.saturating_add(1);
            self.row = self.row.saturating_add(1).min(16);
            return None;
        };
        self.row = 0;
        self.made = self.made.saturating_add(1);
        let alloc = self.rt.alloc();
        let script = self.scripts.pop_front().unwrap_or(Script::quiet(alloc));
        let link_in = WaitingIn {
            rt: self.rt,
            word: heard,
            looks: script.looks,
            place: 0,
            owed: 0,
            faults: 0,
            ends: 0,
        };
        let link_out = WaitingOut {
            rt: self.rt,
            word: said,
            raises: script.raises,
            failing_sends: script.failing_sends,
            sent: Vec::new(alloc),
            faults: 0,
        };
        Some((link_in, link_out))
    }
}
