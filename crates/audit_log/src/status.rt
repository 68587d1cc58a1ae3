//! How a run ended, and its number (profile).

ghost use Rattle.std.specs.Prelude.{◌≡◌, ◌≢◌};
ghost use Rattle.audit_log.specs.Ends.{status_number, written_status};

use agent_status::Status;
use std::fmt;
use std::fmt::{Display, Formatter};

/// How a run ended.
#[derive(Clone, Copy)]
pub enum AuditStatus {
    /// The journal was written, or the text is one.
    Done,
    /// The words aren't those of a command.
    Usage,
    /// This line of the transcript, counted from 1, may not stand where it stands.
    BadTranscript { line: u64, reason: u32 },
    /// The input failed.
    ReadFault,
    /// The output failed.
    WriteFault,
    /// Memory ran out.
    OutOfMemory,
    /// The input has more octets than may be taken of one.
    TooLong,
    /// The text stops to be a journal at this line, counted from 1.
    AuditNo { line: u64, reason: u32 },
}

impl AuditStatus {
    /// The number that the program exits with.
    pub fn number(&self) -> u8
        ensures { result ≡ status_number self.now }
    {
        match self {
            AuditStatus::Done => 0,
            AuditStatus::Usage => 1,
            AuditStatus::BadTranscript { .. } => 3,
            AuditStatus::ReadFault => 4,
            AuditStatus::WriteFault => 5,
            AuditStatus::OutOfMemory => 9,
            AuditStatus::TooLong => 12,
            AuditStatus::AuditNo { .. } => 13,
        }
    }
}

/// How a run ended that wrote a journal, or that gave no verdict. No other status comes of it.
pub(crate) fn audit_status(status: Status) -> AuditStatus
    ensures is { result ≡ written_status status }
    ensures begun { result ≢ AuditStatus.Usage }
{
    match status {
        Status::Done => AuditStatus::Done,
        Status::BadTranscript { line, reason } => AuditStatus::BadTranscript { line, reason },
        Status::ReadFault => AuditStatus::ReadFault,
        Status::WriteFault => AuditStatus::WriteFault,
        Status::TooLong => AuditStatus::TooLong,
        _ => AuditStatus::OutOfMemory,
    }
}

impl Display for AuditStatus {
    fn fmt<W: fmt::Write>(&self, f: &mut Formatter<W>) -> fmt::Result {
        match self {
            AuditStatus::BadTranscript { line, reason } => {
                write!(f, "BadTranscript {line} {reason}")
            }
            AuditStatus::AuditNo { line, reason } => write!(f, "AuditNo {line} {reason}"),
            AuditStatus::Done => f.write_str("Done"),
            AuditStatus::Usage => f.write_str("Usage"),
            AuditStatus::ReadFault => f.write_str("ReadFault"),
            AuditStatus::WriteFault => f.write_str("WriteFault"),
            AuditStatus::OutOfMemory => f.write_str("OutOfMemory"),
            AuditStatus::TooLong => f.write_str("TooLong"),
        }
    }
}
