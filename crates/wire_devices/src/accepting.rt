//! A dialer that is dialled: it accepts one connection.

ghost use Rattle.std.specs.Prelude.{◌≡◌, None, IfOk};
ghost use Rattle.wire_devices.specs.Dialling.{no_dials};

use crate::devices::Dialer;
use crate::streams::{TcpIn, TcpOut, ends_of};
use std::io::ErrorKind;
use std::marker::Model;
use std::net::{Ipv4Addr, Net, TcpListener, TcpStream};
use std::sync::Wait;
use std::{io, rt};

/// A listener of std, of IPv4. It makes one link, from the first connection, for which it waits. Where it isn't opened
/// each dial gives None.
#[derive(Drop)]
pub struct TcpAccepter<R> {
    rt: R,
    listener: Option<TcpListener>,
    faults: u64,
    row: u8,
    made: u64,
}

impl<R> Model for TcpAccepter<R> {
    ghost use Rattle.std.specs.Prelude.{◌≤◌};
    ghost use Rattle.wire_devices.specs.Dialling.{DialCounts};

    ghost Value = { DialCounts };

    ghost view = { λ d. record { told = record { faults = d.faults; row = d.row }; made = d.made } };

    ghost invariant = { λ d. d.row ≤ 16 };
}

impl<R: Net<Listener = TcpListener, Stream = TcpStream> + Copy> TcpAccepter<R> {
    /// A listener at this address and port, or why the system opens none. Port 0 is one that the system chooses.
    pub fn bind(rt: R, address: u32, port: u16) -> io::Result<TcpAccepter<R>>
        ensures { IfOk result (λ accepter. accepter ≡ no_dials) }
    {
        let listener = TcpListener::bind(&rt, (Ipv4Addr::from(address), port))?;
        Ok(TcpAccepter::over(rt, Some(listener)))
    }
}

impl<R> TcpAccepter<R> {
    /// A listener that isn't opened.
    pub fn closed(rt: R) -> TcpAccepter<R>
        ensures { result ≡ no_dials }
    {
        TcpAccepter::over(rt, None)
    }

    fn over(rt: R, listener: Option<TcpListener>) -> TcpAccepter<R>
        ensures { result ≡ no_dials }
    {
        TcpAccepter {
            rt,
            listener,
            faults: 0,
            row: 0,
            made: 0,
        }
    }
}

impl<R: Wait + rt::Clock + Copy> Dialer for TcpAccepter<R> {
    type In = TcpIn;

    type Out = TcpOut<R>;

    ghost told = { λ d. d.told };

    ghost made = { λ d. d.made };

    fn dial(&mut self) -> Option<(TcpIn, TcpOut<R>)> {
        match accept(self.rt, self.listener.take()) {
            Ok((link_in, link_out)) => {
                self.row = 0;
                let number = self.made;
                self.made = self.made.saturating_add(1);
                Some((link_in.numbered(number), link_out))
            }
            Err(_) => {
                self.faults = self.faults.saturating_add(1);
                self.row = self.row.saturating_add(1).min(16);
                None
            }
        }
    }
}

fn accept<R: Copy>(rt: R, listener: Option<TcpListener>) -> io::Result<(TcpIn, TcpOut<R>)>
    ensures { IfOk result
        (λ ends. (ends.0 ≡ record { faults = 0; ends = 0; number = None }) × (ends.1 ≡ 0)) }
{
    let Some(listener) = listener else {
        return Err(io::Error::from(ErrorKind::NotConnected));
    };
    let (stream, _) = listener.accept()?;
    ends_of(rt, stream, None)
}
