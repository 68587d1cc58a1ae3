//! The program: `audit_log write` makes of a transcript a journal, in which each line stands with what went out for it, sealed
//! under a key, and `audit_log check` says whether a text is one. Where the status isn't 0, its name stands on stderr.
#![tactic(auto)]

mod audit;
mod status;
mod words;

pub use audit::audit;
use replay_command::wanted_in_transcript;
pub use status::AuditStatus;
use std::hash::RandomState;
use std::process::ExitCode;
use std::{env, io};
use wire_core::{ReaderSource, WriterSink};

const USAGE: &str = "\
usage: audit_log write KEY < TRANSCRIPT
       audit_log check KEY < JOURNAL
       audit_log --help
       audit_log --version
";

const HELP: &str = "
write reads a transcript, as agent replay does, and writes its journal: a line 'journal 1', and for each line a block of
'< ' and the line, '> ' and each line that goes out for it, and '= ' and the block's seal. The last block has the end line.
A seal is the HMAC-MD5, under KEY, of the seal before it and of the block's lines. Each block is written before the next
line is read.

check reads a text, and prints 'yes LINES' where it is the journal of a transcript of so many lines, or 'no LINE REASON':
the first line that is at fault, counted from 1, and 1 for a line of no such form, 2 where what went out is another, 3 for
another line or seal, 4 where lines are missing at the end.

KEY is 1 to 64 octets in hex. A yes means that every output in the text is the one that the agent's rule gives for the
lines before it. Whoever has the key can make a journal, and nothing is claimed of forged seals.

exit statuses: 0 done, 1 other words, 3 a line of the transcript that isn't allowed where it is, 4 the input failed,
5 the output failed, 9 no memory, 12 an input that is too long, 13 no journal, 14 no random octets
";

/// The words after the program's name.
fn words_after_name(rt: &HostRuntime) -> io::Result<Vec<String>> {
    let mut words = Vec::new(rt.alloc());
    for word in env::args(rt)?.skip(1) {
        words.push(word)?;
    }
    Ok(words)
}

/// How a run ends whose words can't be had: one that isn't UTF-8 is no command's, and else memory is wanting.
fn status_without_words(error: &io::Error) -> AuditStatus {
    match error.kind() {
        io::ErrorKind::InvalidData => AuditStatus::Usage,
        _ => AuditStatus::OutOfMemory,
    }
}

/// What was wanted in place of the line at which a text stops to be a journal.
fn wanted_in_journal(reason: u32) -> &'static str {
    match reason {
        1 => "expected another form of line, or what can follow",
        2 => "expected what goes out here",
        3 => "expected the seal that is due, or what stands before it",
        _ => "expected further lines",
    }
}

/// Says on stderr how a run ended that wasn't done, and gives the status to exit with.
fn end(rt: &HostRuntime, status: AuditStatus) -> ExitCode {
    let _ = match status {
        AuditStatus::Done => Ok(()),
        AuditStatus::Usage => eprint!(rt; "audit_log: {status}\n{USAGE}"),
        AuditStatus::BadTranscript { line, reason } => {
            let wanted = wanted_in_transcript(line, reason);
            eprintln!(rt; "audit_log: {status} ({wanted})")
        }
        AuditStatus::AuditNo { line: _, reason } => {
            let wanted = wanted_in_journal(reason);
            eprintln!(rt; "audit_log: {status} ({wanted})")
        }
        _ => eprintln!(rt; "audit_log: {status}"),
    };
    ExitCode::from(status.number())
}

/// Prints these texts on stdout.
fn tell(rt: &HostRuntime, text: &str, more: &str) -> ExitCode {
    match print!(rt; "{text}{more}") {
        Ok(()) => ExitCode::SUCCESS,
        Err(_) => end(rt, AuditStatus::WriteFault),
    }
}

fn main(rt: HostRuntime) -> ExitCode {
    let words = match words_after_name(&rt) {
        Ok(words) => words,
        Err(error) => return end(&rt, status_without_words(&error)),
    };
    if let [word] = words.as_slice() {
        match word.as_str() {
            "--help" => return tell(&rt, USAGE, HELP),
            "--version" => return tell(&rt, "audit_log 0.1.0\n", ""),
            _ => {}
        }
    }
    let Ok(random) = RandomState::new(&rt) else {
        let _ = eprintln!(&rt; "audit_log: random");
        return ExitCode::from(14);
    };
    let mut input = ReaderSource::new(rt.reader());
    let mut output = WriterSink::new(io::writer(&rt));
    let status = audit(
        rt.alloc(),
        random,
        words.as_slice(),
        &mut input,
        &mut output,
    );
    end(&rt, status)
}
