//! What the running server is given of the outside. A device tells its content where it is known, and may stop telling.

ghost use Rattle.std.specs.Prelude.{◌≡◌, ℕ, List, [], ◌∷◌, Option, IfSome, IsNone, IsSome};
ghost use Rattle.wire_core.specs.Counts.{Counts};
ghost use Rattle.wire_devices.specs.Telling.{Adds, TellsOnly};
ghost use Rattle.wire_devices.specs.Sockets.{Socket, datagram, Receives, Sends, Twinned, IsFreshSocket};
ghost use Rattle.wire_devices.specs.Links.{Inlet, Outlet, Hears, Speaks, IsFreshInlet, IsFreshOutlet};
ghost use Rattle.wire_devices.specs.Dialling.{Dials, Dialled};

use wire_core::{Octets, Put};

/// A clock. It can't fail.
pub trait Clock {
    /// The readings so far, where the clock tells them.
    ghost readings: { Self → Option (List ℕ) };

    /// The moment, in milliseconds.
    fn now(&mut self) -> u64
        ensures { Adds (readings self.old) (readings self.new) (result ∷ []) };
}

/// A datagram with the place that it came from or goes to.
#[derive(Clone, PartialEq, Eq, Drop)]
pub struct Datagram {
    /// An IPv4 address.
    pub address: u32,
    pub port: u16,
    pub octets: Octets,
}

/// What a look at a socket found.
#[derive(Clone, Copy, PartialEq, Eq)]
pub enum Took {
    /// A datagram, of which the first `length` octets stand at the front of the buffer. What doesn't fit is lost.
    From {
        address: u32,
        port: u16,
        length: usize,
    },
    /// No datagram was there.
    Nothing,
    /// The receive failed, and took none.
    Failed,
}

/// A socket for datagrams.
pub trait Datagrams {
    /// What the socket tells.
    ghost told: { Self → Socket };

    /// Looks for a datagram. A look takes a short while at most.
    fn receive(&mut self, buf: &mut [u8]) -> Took
        ensures { Receives result (told self.old) (told self.new) buf.new };

    /// Sends these octets to an IPv4 address and a port.
    fn send(&mut self, address: u32, port: u16, octets: &[u8]) -> Put
        ensures { Sends result (told self.old) (told self.new) (datagram address port octets.now) };

    /// A socket that sends from the same port. None counts as a fault.
    fn twin(&mut self) -> Option<Self>
        ensures fresh { IfSome result (λ twin. IsFreshSocket (told twin)) }
        ensures port { IfSome result (λ twin. (told twin).port ≡ (told self.old).port) }
        ensures twinned { Twinned (IsNone result) (told self.old) (told self.new) };
}

/// What a look at a link found.
#[derive(Clone, Copy, PartialEq, Eq)]
pub enum LinkGot {
    /// So many octets stand at the front of the buffer. None counts as an end.
    Bytes(usize),
    /// No octet was there.
    Nothing,
    /// Nothing is left.
    Ended,
    /// The receive failed, and took none.
    Failed,
}

/// The end of a link that octets come from.
pub trait LinkIn {
    /// What this end tells.
    ghost told: { Self → Inlet };

    /// Looks for octets. A look takes a short while at most.
    fn receive(&mut self, buf: &mut [u8]) -> LinkGot
        ensures { Hears result (told self.old) (told self.new) buf.new };
}

/// The end of a link that octets go to.
pub trait LinkOut {
    /// What this end tells.
    ghost told: { Self → Outlet };

    /// Sends these octets after those that were sent before.
    fn send(&mut self, octets: &[u8]) -> Put
        ensures { Speaks result (told self.old) (told self.new) octets.now };

    /// May pause, while more comes that is to be sent.
    fn rest(&mut self)
        ensures { told self.new ≡ told self.old };

    /// Lets the link go: the other side may learn that nothing more comes.
    fn close(&mut self)
        ensures { told self.new ≡ told self.old };
}

/// Makes links to one place.
pub trait Dialer {
    type In: LinkIn;

    type Out: LinkOut;

    /// What the dialer tells.
    ghost told: { Self → Dials };

    /// How many links it made.
    ghost made: { Self → ℕ };

    /// The two ends of a link that was just made. None counts as a fault.
    fn dial(&mut self) -> Option<(Self::In, Self::Out)>
        ensures fresh { IfSome result
            (λ ends. IsFreshInlet (Self.In.told ends.0) × IsFreshOutlet (Self.Out.told ends.1)) }
        ensures dialled { Dialled result (told self.old) (told self.new) }
        ensures numbered { IfSome result
            (λ ends. TellsOnly (Self.In.told ends.0).number (made self.old)) }
        ensures counted { Counts (IsSome result) (made self.old) (made self.new) };
}
