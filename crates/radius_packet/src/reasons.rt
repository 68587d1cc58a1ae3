//! Why an input is dropped, and on which side it came.

ghost use Rattle.std.specs.Prelude.{◌≡◌};

/// Why an input has no other answer, in the order in which the reasons are looked at (profile).
#[derive(Clone, Copy, PartialEq, Eq)]
pub enum Reason {
    /// No client has the source address.
    UnknownClient,
    /// Fewer octets than a header or than the Length.
    Short,
    /// A Length outside 20 to 4096.
    BadLength,
    /// A code that is not served on this port.
    BadCode,
    /// An attribute that is not whole.
    BadAttribute,
    /// A wrong Request Authenticator of an accounting packet.
    BadAuthenticator,
    /// A Message-Authenticator is required and missing.
    NoSeal,
    /// A wrong Message-Authenticator.
    BadSeal,
    /// A NAS-IP-Address that is not the client's.
    NasAddress,
    /// More than one password.
    BothPasswords,
    /// A password of a wrong size.
    BadPassword,
    /// Not one good Acct-Status-Type.
    NoStatus,
    /// Accounting-On or Accounting-Off.
    OnOff,
    /// An attribute that holds keys.
    KeyAttribute,
    /// The first attribute, of this type, whose value has a wrong size or text.
    BadValue { code: u8 },
    /// Too many octets of Proxy-State.
    ProxyStateTooLong,
    /// A repeat of a request that waits for its answer.
    Waiting,
    /// A repeat of a request that was answered without a reply.
    Silent,
    /// The link to the home server is not open.
    LinkDown,
    /// The numbers of the link or of the sessions are used up.
    Spent,
    /// As many requests are live as the table holds.
    Full,
    /// As many messages wait as the outbox holds.
    Backlog,
    /// A message whose header is refused.
    BadMessage,
    /// A message that the link's phase does not allow.
    WrongPhase,
    /// An answer that belongs to no request.
    Unmatched,
}

impl Reason {
    ghost use Rattle.radius_packet.specs.Reasons.{reason_number};

    /// Its number: 1 to 25 in order.
    pub fn number(&self) -> u32
        ensures { result ≡ reason_number self.now }
    {
        match self {
            Reason::UnknownClient => 1,
            Reason::Short => 2,
            Reason::BadLength => 3,
            Reason::BadCode => 4,
            Reason::BadAttribute => 5,
            Reason::BadAuthenticator => 6,
            Reason::NoSeal => 7,
            Reason::BadSeal => 8,
            Reason::NasAddress => 9,
            Reason::BothPasswords => 10,
            Reason::BadPassword => 11,
            Reason::NoStatus => 12,
            Reason::OnOff => 13,
            Reason::KeyAttribute => 14,
            Reason::BadValue { code: _ } => 15,
            Reason::ProxyStateTooLong => 16,
            Reason::Waiting => 17,
            Reason::Silent => 18,
            Reason::LinkDown => 19,
            Reason::Spent => 20,
            Reason::Full => 21,
            Reason::Backlog => 22,
            Reason::BadMessage => 23,
            Reason::WrongPhase => 24,
            Reason::Unmatched => 25,
        }
    }
}

/// The port on which a packet came.
#[derive(Clone, Copy, PartialEq, Eq, Hash)]
pub enum Via {
    Auth,
    Acct,
}
