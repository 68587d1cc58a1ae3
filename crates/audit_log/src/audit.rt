//! The commands `write` and `check`.

ghost use Rattle.std.specs.Prelude.{◌≡◌, ◌≢◌, ◌≤◌, ◌⊎◌, ◌∷◌, [], List, ℕ, Some, None, length};
ghost use Rattle.wire_core.specs.Counts.{Rose};
ghost use Rattle.text_lines.specs.Streams.{most_octets};
ghost use Rattle.text_lines.specs.Words.{lines_of};
ghost use Rattle.journal.specs.Journal.{journal_text};
ghost use Rattle.replay_command.specs.Replay.{replay_task};
ghost use Rattle.audit_log.specs.Ends.{AuditCounts, AuditsBy, WritesBy};
ghost use Rattle.audit_log.specs.Words.{parsed_command};
ghost use Rattle.audit_log.specs.declared.words.AuditCommand.TheVariants.{Check, Write};

use crate::status::{AuditStatus, audit_status};
use crate::words::{AuditCommand, command_named, read_key};
use journal::{Verdict, check_journal, write_journal};
use replay_command::start_replay;
use std::alloc::Global;
use std::hash::RandomState;
use text_lines::WordFault;
use wire_core::{Octets, Sink, Source};

/// Writes the journal of a transcript under this key.
fn write<S: Source, K: Sink>(
    alloc: Global,
    random: RandomState,
    key: Octets,
    input: &mut S,
    output: &mut K,
) -> AuditStatus
    ensures begun { result ≢ AuditStatus.Usage }
    ensures writes { (X : List ℕ) → S.left input.old ≡ Some X
        → WritesBy result key X (S.left input.new) (K.written output.old) (K.written output.new) }
    ensures counts { AuditCounts result (S.ends input.old) (S.ends input.new) (S.faults input.old)
        (S.faults input.new)
        (K.faults output.old) (K.faults output.new) }
    ensures complete { (X : List ℕ) → S.left input.old ≡ Some X
        → replay_task.stop (lines_of X) ≡ None → length X ≤ most_octets
        → ¬ Rose (S.faults input.old) (S.faults input.new)
        → ¬ Rose (K.faults output.old) (K.faults output.new)
        → (result ≡ AuditStatus.Done) ⊎ (result ≡ AuditStatus.OutOfMemory) }
{
    let Ok(work) = start_replay(alloc, random) else {
        return AuditStatus::OutOfMemory;
    };
    audit_status(write_journal(alloc, work, key, input, output))
}

/// Says whether the input is the journal of a transcript under this key.
fn check<S: Source, K: Sink>(
    alloc: Global,
    random: RandomState,
    key: Octets,
    input: &mut S,
    output: &mut K,
) -> AuditStatus
    ensures begun { result ≢ AuditStatus.Usage }
    ensures checks { (X : List ℕ) → S.left input.old ≡ Some X
        → AuditsBy result key X (S.left input.new) (K.written output.old) (K.written output.new) }
    ensures counts { AuditCounts result (S.ends input.old) (S.ends input.new) (S.faults input.old)
        (S.faults input.new)
        (K.faults output.old) (K.faults output.new) }
    ensures complete { (X text : List ℕ) → S.left input.old ≡ Some X
        → replay_task.stop (lines_of text) ≡ None
        → X ≡ journal_text replay_task key (lines_of text) → length X ≤ most_octets
        → ¬ Rose (S.faults input.old) (S.faults input.new)
        → ¬ Rose (K.faults output.old) (K.faults output.new)
        → (result ≡ AuditStatus.Done) ⊎ (result ≡ AuditStatus.OutOfMemory) }
{
    let Ok(work) = start_replay(alloc, random) else {
        return AuditStatus::OutOfMemory;
    };
    match check_journal(alloc, work, key, input, output) {
        Ok(Verdict::Yes { .. }) => AuditStatus::Done,
        Ok(Verdict::No { line, reason }) => AuditStatus::AuditNo { line, reason },
        Err(status) => audit_status(status),
    }
}

/// Runs the command that these words name: `write KEY` makes of a transcript its journal, and `check KEY` says whether a
/// text is one. `random` is for a table that hashes its keys.
pub fn audit<S: Source, K: Sink>(
    alloc: Global,
    random: RandomState,
    words: &[String],
    input: &mut S,
    output: &mut K,
) -> AuditStatus
    ensures usage { result ≡ AuditStatus.Usage → parsed_command words.now ≡ None }
    ensures refused { parsed_command words.now ≡ None
        → (result ≡ AuditStatus.Usage) ⊎ (result ≡ AuditStatus.OutOfMemory) }
    ensures untouched { parsed_command words.now ≡ None
        → (input.new ≡ input.old) × (output.new ≡ output.old) }
    ensures writes { (key X : List ℕ) → parsed_command words.now ≡ Some (Write, key)
        → S.left input.old ≡ Some X
        → WritesBy result key X (S.left input.new) (K.written output.old) (K.written output.new) }
    ensures write_complete { (key X : List ℕ) → parsed_command words.now ≡ Some (Write, key)
        → S.left input.old ≡ Some X
        → replay_task.stop (lines_of X) ≡ None → length X ≤ most_octets
        → ¬ Rose (S.faults input.old) (S.faults input.new)
        → ¬ Rose (K.faults output.old) (K.faults output.new)
        → (result ≡ AuditStatus.Done) ⊎ (result ≡ AuditStatus.OutOfMemory) }
    ensures checks { (key X : List ℕ) → parsed_command words.now ≡ Some (Check, key)
        → S.left input.old ≡ Some X
        → AuditsBy result key X (S.left input.new) (K.written output.old) (K.written output.new) }
    ensures check_complete { (key X text : List ℕ) → parsed_command words.now ≡ Some (Check, key)
        → S.left input.old ≡ Some X
        → replay_task.stop (lines_of text) ≡ None → X ≡ journal_text replay_task key (lines_of text)
        → length X ≤ most_octets
        → ¬ Rose (S.faults input.old) (S.faults input.new)
        → ¬ Rose (K.faults output.old) (K.faults output.new)
        → (result ≡ AuditStatus.Done) ⊎ (result ≡ AuditStatus.OutOfMemory) }
    ensures counts { AuditCounts result (S.ends input.old) (S.ends input.new) (S.faults input.old)
        (S.faults input.new)
        (K.faults output.old) (K.faults output.new) }
{
    let [word, key] = words else {
        return AuditStatus::Usage;
    };
    let Some(command) = command_named(word.as_str()) else {
        return AuditStatus::Usage;
    };
    let key = match read_key(alloc, key.as_str()) {
        Ok(key) => key,
        Err(WordFault::Bad) => return AuditStatus::Usage,
        Err(WordFault::NoMemory) => return AuditStatus::OutOfMemory,
    };
    match command {
        AuditCommand::Write => write(alloc, random, key, input, output),
        AuditCommand::Check => check(alloc, random, key, input, output),
    }
}
