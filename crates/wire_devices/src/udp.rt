//! std's socket for datagrams. It tells the port that it was opened at, and nothing of content: what the network gives and takes is trusted, and so are these
//! few lines.

ghost use Rattle.std.specs.Prelude.{◌≡◌, ◌==◌, if◌then◌else◌, length, None, Some, IfOk};
ghost use Rattle.wire_devices.specs.Forms.{told_of_port};
ghost use Rattle.wire_devices.specs.Sockets.{Fits};

use crate::devices::{Datagrams, Took};
use crate::waker::Waker;
use std::io;
use std::io::ErrorKind;
use std::marker::Model;
use std::net::{IpAddr, Ipv4Addr, Net, UdpSocket};
use std::time::Duration;
use wire_core::Put;

/// How long a look waits at most, in milliseconds.
pub(crate) const LOOK: u64 = 100;

/// A socket of std, of IPv4. One that isn't opened fails at each call. A look waits a tenth of a second at most.
#[derive(Drop)]
pub struct UdpDatagrams {
    socket: Option<UdpSocket>,
    waker: Option<Waker>,
    faults: u64,
    row: u8,
    /// The port that it was opened at, unless the system chose it.
    port: Option<u16>,
}

impl Model for UdpDatagrams {
    ghost use Rattle.std.specs.Prelude.{◌≤◌};
    ghost use Rattle.wire_devices.specs.Forms.{PortCounts};

    ghost Value = { PortCounts };

    ghost view = { λ s. record { port = s.port; faults = s.faults; row = s.row } };

    ghost invariant = { λ s. s.row ≤ 16 };
}

impl UdpDatagrams {
    /// A socket at this address and port, or why the system opens none. Port 0 is one that the system chooses.
    pub fn bind<R: Net>(net: &R, address: u32, port: u16) -> io::Result<UdpDatagrams>
        ensures { IfOk result (λ socket. socket
            ≡ record { port = if port == 0 then None else Some port; faults = 0; row = 0 }) }
    {
        let socket = UdpSocket::bind(net, (Ipv4Addr::from(address), port))?;
        socket.set_read_timeout(Some(Duration::from_millis(LOOK)))?;
        let own = if port == 0 { None } else { Some(port) };
        Ok(UdpDatagrams::over(Some(socket), own))
    }

    /// A socket that isn't opened.
    pub fn closed() -> UdpDatagrams
        ensures { result ≡ record { port = None; faults = 0; row = 0 } }
    {
        UdpDatagrams::over(None, None)
    }

    /// The same socket, which wakes this before each look: what the look before found may have been entered since.
    pub fn waking(mut self, waker: &Waker) -> UdpDatagrams
        ensures { result ≡ self }
    {
        self.waker = waker.another();
        self
    }

    fn over(socket: Option<UdpSocket>, port: Option<u16>) -> UdpDatagrams
        ensures { result ≡ record { port = port; faults = 0; row = 0 } }
    {
        UdpDatagrams {
            socket,
            waker: None,
            faults: 0,
            row: 0,
            port,
        }
    }
}

impl Datagrams for UdpDatagrams {
    ghost told = { told_of_port };

    fn receive(&mut self, buf: &mut [u8]) -> Took {
        if let Some(waker) = &self.waker {
            waker.wake();
        }
        match look(&self.socket, buf) {
            Took::From {
                address,
                port,
                length,
            } => {
                self.row = 0;
                Took::From {
                    address,
                    port,
                    length,
                }
            }
            Took::Nothing => {
                self.row = 0;
                Took::Nothing
            }
            Took::Failed => {
                self.faults = self.faults.saturating_add(1);
                self.row = self.row.saturating_add(1).min(16);
                Took::Failed
            }
        }
    }

    fn send(&mut self, address: u32, port: u16, octets: &[u8]) -> Put {
        if sends(&self.socket, address, port, octets) {
            return Put::Done;
        }
        self.faults = self.faults.saturating_add(1);
        Put::Failed
    }

    fn twin(&mut self) -> Option<UdpDatagrams> {
        match twin_of(&self.socket) {
            Some(twin) => Some(UdpDatagrams::over(Some(twin), self.port)),
            None => {
                self.faults = self.faults.saturating_add(1);
                None
            }
        }
    }
}

/// One look at the socket.
fn look(socket: &Option<UdpSocket>, buf: &mut [u8]) -> Took
    ensures { Fits result (length buf.new) }
{
    let Some(socket) = socket else {
        return Took::Failed;
    };
    match socket.recv_from(buf) {
        Ok((length, from)) => match from.ip() {
            IpAddr::V4(ip) => Took::From {
                address: u32::from(ip),
                port: from.port(),
                length,
            },
            IpAddr::V6(_) => Took::Failed,
        },
        Err(e) => {
            if is_nothing(e.kind()) {
                Took::Nothing
            } else {
                Took::Failed
            }
        }
    }
}

/// Another handle of the same socket.
fn twin_of(socket: &Option<UdpSocket>) -> Option<UdpSocket> {
    socket.as_ref()?.try_clone().ok()
}

/// Whether the datagram was sent.
fn sends(socket: &Option<UdpSocket>, address: u32, port: u16, octets: &[u8]) -> bool {
    match socket {
        Some(socket) => socket
            .send_to(octets, (Ipv4Addr::from(address), port))
            .is_ok(),
        None => false,
    }
}

/// Whether a look that ended so found nothing: it waited for its time, or a signal cut it short.
pub(crate) fn is_nothing(kind: ErrorKind) -> bool {
    matches!(
        kind,
        ErrorKind::WouldBlock | ErrorKind::TimedOut | ErrorKind::Interrupted
    )
}
