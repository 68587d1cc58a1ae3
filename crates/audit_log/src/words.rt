//! The command that the words of the command line name.

ghost use Rattle.std.specs.Prelude.{◌≡◌};
ghost use Rattle.text_lines.specs.Reads.{Reads};
ghost use Rattle.audit_log.specs.Words as words;

use std::alloc::Global;
use text_lines::WordFault;
use text_lines::words::read_hex;
use wire_core::Octets;

/// What the program does.
#[derive(Clone, Copy)]
pub enum AuditCommand {
    /// It makes a journal of a transcript.
    Write,
    /// It says whether a text is a journal.
    Check,
}

/// The command that this word names.
pub(crate) fn command_named(word: &str) -> Option<AuditCommand>
    ensures { result ≡ words.audit_command word.now }
{
    match word {
        "write" => Some(AuditCommand::Write),
        "check" => Some(AuditCommand::Check),
        _ => None,
    }
}

/// The key that this word is: 1 to 64 octets in hex.
pub(crate) fn read_key(alloc: Global, word: &str) -> Result<Octets, WordFault>
    ensures { Reads result (words.key_word word.now) }
{
    let key = match read_hex(alloc, word.as_bytes()) {
        Ok(key) => key,
        Err(fault) => return Err(fault),
    };
    if (1..=64).contains(&key.as_slice().len()) {
        Ok(key)
    } else {
        Err(WordFault::Bad)
    }
}
