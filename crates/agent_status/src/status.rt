//! The statuses and their numbers (profile).

ghost use Rattle.std.specs.Prelude.{◌≡◌};
ghost use Rattle.agent_status.specs.Numbers.{status_number};

use agent_settings::ConfigFault;
use peer_machine::LinkCause;

/// How a run ended.
#[derive(Clone, Drop, PartialEq, Eq)]
pub enum Status {
    /// The input was read to its end, or the run came to the moment of its end.
    Done,
    /// The words aren't those of a command.
    Usage,
    /// The settings have this fault.
    BadConfig { fault: ConfigFault },
    /// This line of the input, counted from 1, may not stand where it stands.
    BadTranscript { line: u64, reason: u32 },
    /// The input failed.
    ReadFault,
    /// The output failed.
    WriteFault,
    /// No link could be made.
    LinkFault,
    /// The home server refused the link with this Result-Code; 0 where none could be read.
    PeerRefused { result: u32 },
    /// A thread couldn't be started.
    NoThread,
    /// Memory ran out.
    OutOfMemory,
    /// A socket failed.
    DatagramFault,
    /// The link was closed too often, at last for this cause.
    LinkEnded { cause: LinkCause },
    /// The input has more octets than may be taken of one.
    TooLong,
}

impl Status {
    /// The number that the program exits with.
    pub fn number(&self) -> u8
        ensures { result ≡ status_number self.now }
    {
        match self {
            Status::Done => 0,
            Status::Usage => 1,
            Status::BadConfig { .. } => 2,
            Status::BadTranscript { .. } => 3,
            Status::ReadFault => 4,
            Status::WriteFault => 5,
            Status::LinkFault => 6,
            Status::PeerRefused { .. } => 7,
            Status::NoThread => 8,
            Status::OutOfMemory => 9,
            Status::DatagramFault => 10,
            Status::LinkEnded { .. } => 11,
            Status::TooLong => 12,
        }
    }
}
