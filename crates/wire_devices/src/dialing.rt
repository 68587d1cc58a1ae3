//! A dialer over std's stream.

ghost use Rattle.std.specs.Prelude.{◌≡◌, None, IfOk};
ghost use Rattle.wire_devices.specs.Dialling.{no_dials};

use crate::devices::Dialer;
use crate::streams::{TcpIn, TcpOut, ends_of};
use crate::times::millis;
use crate::waker::Waker;
use std::io::ErrorKind;
use std::marker::Model;
use std::net::{IpAddr, Ipv4Addr, Net, SocketAddr, TcpListener, TcpStream};
use std::sync::Wait;
use std::time::Duration;
use std::{io, rt, thread};

/// How long a dial waits for an answer, in milliseconds.
const PATIENCE: u64 = 8_000;

/// The least and the longest pause, in milliseconds.
const SHORT_PAUSE: u64 = 100;

const LONG_PAUSE: u64 = 8_000;

/// A link that lasts so long didn't end at once, in milliseconds.
const LASTING: u64 = 10_000;

/// Dials an IPv4 address and a port. It pauses after a dial that was refused, and before one that follows a link of less than
/// 10 seconds: a tenth of a second at first, twice as long each further time in a row, and at most 8 seconds.
#[derive(Drop)]
pub struct TcpDialer<R> {
    rt: R,
    address: u32,
    port: u16,
    waker: Option<Waker>,
    /// The next pause, in milliseconds.
    pause: u64,
    /// Where the last dial made a link, when it did, by the clock that never goes back.
    made_at: Option<u64>,
    refusal: Option<ErrorKind>,
    faults: u64,
    row: u8,
    made: u64,
}

impl<R> Model for TcpDialer<R> {
    ghost use Rattle.std.specs.Prelude.{◌≤◌};
    ghost use Rattle.wire_devices.specs.Dialling.{DialCounts};

    ghost Value = { DialCounts };

    ghost view = { λ d. record { told = record { faults = d.faults; row = d.row }; made = d.made } };

    ghost invariant = { λ d. d.row ≤ 16 };
}

impl<R> TcpDialer<R> {
    /// A dialer that has dialled nobody yet.
    pub fn new(rt: R, address: u32, port: u16) -> TcpDialer<R>
        ensures { result ≡ no_dials }
    {
        TcpDialer {
            rt,
            address,
            port,
            waker: None,
            pause: SHORT_PAUSE,
            made_at: None,
            refusal: None,
            faults: 0,
            row: 0,
            made: 0,
        }
    }

    /// The same dialer, whose links' writers rest on this.
    pub fn woken_by(mut self, waker: &Waker) -> TcpDialer<R>
        ensures { result ≡ self }
    {
        self.waker = waker.another();
        self
    }

    /// Why the last dial made no link, where it made none.
    pub fn refusal(&self) -> Option<ErrorKind> {
        self.refusal
    }
}

impl<R: Wait + rt::Clock> TcpDialer<R> {
    /// The clock that never goes back, in milliseconds, where it can be read.
    fn moment(&self) -> Option<u64> {
        self.rt.monotonic().ok().map(millis)
    }

    /// Pauses, and twice as long the next time.
    fn hold_off(&mut self)
        ensures { self.new ≡ self.old }
    {
        thread::sleep(&self.rt, Duration::from_millis(self.pause));
        self.pause = self.pause.saturating_mul(2).min(LONG_PAUSE);
    }

    /// Pauses where the last link ended soon after it was made: who takes links and closes them isn't dialled without end.
    fn await_next(&mut self)
        ensures { self.new ≡ self.old }
    {
        let Some(made) = self.made_at.take() else {
            return;
        };
        match self.moment() {
            Some(now) if now.saturating_sub(made) < LASTING => self.hold_off(),
            _ => self.pause = SHORT_PAUSE,
        }
    }
}

impl<R: Net<Listener = TcpListener, Stream = TcpStream> + Wait + rt::Clock + Copy> Dialer
    for TcpDialer<R> {
    type In = TcpIn;

    type Out = TcpOut<R>;

    ghost told = { λ d. d.told };

    ghost made = { λ d. d.made };

    fn dial(&mut self) -> Option<(TcpIn, TcpOut<R>)> {
        self.await_next();
        let waker = self.waker.as_ref().and_then(|waker| waker.another());
        match connect(self.rt, self.address, self.port, waker) {
            Ok((link_in, link_out)) => {
                self.made_at = self.moment();
                self.refusal = None;
                self.row = 0;
                let number = self.made;
                self.made = self.made.saturating_add(1);
                Some((link_in.numbered(number), link_out))
            }
            Err(error) => {
                self.refusal = Some(error.kind());
                self.hold_off();
                self.faults = self.faults.saturating_add(1);
                self.row = self.row.saturating_add(1).min(16);
                None
            }
        }
    }
}

fn connect<R: Net<Listener = TcpListener, Stream = TcpStream> + Copy>(
    rt: R,
    address: u32,
    port: u16,
    waker: Option<Waker>,
) -> io::Result<(TcpIn, TcpOut<R>)>
    ensures { IfOk result
        (λ ends. (ends.0 ≡ record { faults = 0; ends = 0; number = None }) × (ends.1 ≡ 0)) }
{
    let place = SocketAddr::new(IpAddr::V4(Ipv4Addr::from(address)), port);
    let stream = TcpStream::connect_timeout(&rt, &place, Duration::from_millis(PATIENCE))?;
    ends_of(rt, stream, waker)
}
