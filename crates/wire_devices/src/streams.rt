//! std's stream as the two ends of a link. They tell nothing of content.

ghost use Rattle.std.specs.Prelude.{◌≡◌, None, Some, length, IfOk};
ghost use Rattle.wire_devices.specs.Links.{Within};
ghost use Rattle.wire_devices.specs.Forms.{told_of_ends};

use crate::devices::{LinkGot, LinkIn, LinkOut};
use crate::udp::{LOOK, is_nothing};
use crate::waker::Waker;
use std::io::{Read, Write};
use std::marker::Model;
use std::net::{Shutdown, TcpStream};
use std::sync::Wait;
use std::time::Duration;
use std::{io, rt, thread};
use wire_core::Put;

/// How long a send may wait for the other side, in milliseconds.
const PATIENCE: u64 = 8_000;

/// How long a rest lasts at most, in milliseconds.
const REST: u64 = 10;

/// A piece of more octets than this is taken for several messages, which gather where the link is under load.
const CROWD: usize = 256;

/// How long a rest behind such a piece lasts, in microseconds, to which Linux adds some 50 of its own (timer slack).
const GATHERING: u64 = 10;

/// A stream of std that octets come from.
#[derive(Drop)]
pub struct TcpIn {
    stream: TcpStream,
    faults: u64,
    ends: u64,
    /// Which of a dialer's links it is.
    number: Option<u64>,
}

impl Model for TcpIn {
    ghost use Rattle.wire_devices.specs.Forms.{EndCounts};

    ghost Value = { EndCounts };

    ghost view = { λ s. record { faults = s.faults; ends = s.ends; number = s.number } };
}

impl TcpIn {
    /// The same end, as that of a dialer's link, counted from 0.
    pub(crate) fn numbered(mut self, number: u64) -> TcpIn
        ensures { result ≡ record self { number = Some number } }
    {
        self.number = Some(number);
        self
    }
}

impl LinkIn for TcpIn {
    ghost told = { told_of_ends };

    fn receive(&mut self, buf: &mut [u8]) -> LinkGot {
        match look(&mut self.stream, buf) {
            LinkGot::Bytes(count) => LinkGot::Bytes(count),
            LinkGot::Nothing => LinkGot::Nothing,
            LinkGot::Ended => {
                self.ends = self.ends.saturating_add(1);
                LinkGot::Ended
            }
            LinkGot::Failed => {
                self.faults = self.faults.saturating_add(1);
                LinkGot::Failed
            }
        }
    }
}

/// One look at the stream.
fn look(stream: &mut TcpStream, buf: &mut [u8]) -> LinkGot
    ensures { Within result (length buf.new) }
{
    match stream.read(buf) {
        Ok(count) => {
            if count == 0 {
                LinkGot::Ended
            } else {
                LinkGot::Bytes(count)
            }
        }
        Err(e) => {
            if is_nothing(e.kind()) {
                LinkGot::Nothing
            } else {
                LinkGot::Failed
            }
        }
    }
}

/// A stream of std that octets go to.
#[derive(Drop)]
pub struct TcpOut<R> {
    rt: R,
    stream: TcpStream,
    waker: Option<Waker>,
    /// Whether a piece that is taken for several messages went out since the last rest.
    crowded: bool,
    faults: u64,
}

impl<R> Model for TcpOut<R> {
    ghost use Rattle.std.specs.Prelude.{ℕ};

    ghost Value = { ℕ };

    ghost view = { λ s. s.faults };
}

impl<R: Wait + rt::Clock> LinkOut for TcpOut<R> {
    ghost told = { λ n. record { handed = None; faults = n } };

    fn send(&mut self, octets: &[u8]) -> Put {
        self.crowded |= CROWD < octets.len();
        match self.stream.write_all(octets) {
            Ok(()) => Put::Done,
            Err(_) => {
                self.faults = self.faults.saturating_add(1);
                Put::Failed
            }
        }
    }

    /// Pauses until it is woken, and for a hundredth of a second at most. Behind a piece that is taken for several messages
    /// it pauses for a moment instead, so that more gather and go out in one piece.
    fn rest(&mut self) {
        let longest = Duration::from_millis(REST);
        if self.crowded {
            thread::sleep(&self.rt, Duration::from_micros(GATHERING));
        } else if let Some(waker) = &self.waker {
            waker.rest(&self.rt, longest);
        } else {
            thread::sleep(&self.rt, longest);
        }
        self.crowded = false;
    }

    fn close(&mut self) {
        let _ = self.stream.shutdown(Shutdown::Both);
    }
}

/// The two ends of a stream, where it can be set up. What wakes the one that octets go to from a rest may be left out.
pub(crate) fn ends_of<R: Copy>(
    rt: R,
    stream: TcpStream,
    waker: Option<Waker>,
) -> io::Result<(TcpIn, TcpOut<R>)>
    ensures { IfOk result
        (λ ends. (ends.0 ≡ record { faults = 0; ends = 0; number = None }) × (ends.1 ≡ 0)) }
{
    stream.set_nodelay(true)?;
    stream.set_read_timeout(Some(Duration::from_millis(LOOK)))?;
    stream.set_write_timeout(Some(Duration::from_millis(PATIENCE)))?;
    let other = stream.try_clone()?;
    let link_in = TcpIn {
        stream,
        faults: 0,
        ends: 0,
        number: None,
    };
    let link_out = TcpOut {
        rt,
        stream: other,
        waker,
        crowded: false,
        faults: 0,
    };
    Ok((link_in, link_out))
}
