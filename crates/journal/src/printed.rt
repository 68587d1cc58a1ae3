//! What a line makes a command print, in memory.

ghost use Rattle.std.specs.Prelude.{◌≡◌, ◌≢◌, List, [], ℕ, Err, IfOk, IfErr};
ghost use Rattle.journal.specs.Printed.{Prints, PrintsEnd, memory_status};

use agent_status::Status;
use std::alloc::Global;
use text_commands::Work;
use wire_core::MemorySink;

/// Room for what most lines print, so that a text needn't grow.
const USUAL_PRINT: usize = 512;

/// An empty text.
fn empty(alloc: Global) -> Result<MemorySink, Status>
    ensures made { IfOk result (λ text. (text.written ≡ []) × (text.faults ≡ 0)) }
    ensures memory { IfErr result (λ status. status ≡ Status.OutOfMemory) }
{
    match MemorySink::new(alloc, USUAL_PRINT, &[]) {
        Ok(text) => Ok(text),
        Err(_) => Err(Status::OutOfMemory),
    }
}

/// A text that takes no more octets wants memory.
fn in_memory(status: Status) -> Status
    ensures is { result ≡ memory_status status }
    ensures no_fault { result ≢ Status.WriteFault }
{
    match status {
        Status::WriteFault => Status::OutOfMemory,
        status => status,
    }
}

/// What the next line prints.
pub(crate) fn print_line<W: Work>(
    alloc: Global,
    work: &mut W,
    line: &[u8],
) -> Result<MemorySink, Status>
    requires { (lines : List (List ℕ)) × W.took work.old lines }
    ensures same { W.task work.new ≡ W.task work.old }
    ensures no_fault { result ≢ Err Status.WriteFault }
    ensures prints { (lines : List (List ℕ)) → W.took work.old lines
        → Prints (W.task work.old) (λ taken. W.took work.new taken) result lines line.now }
{
    let mut text = empty(alloc)?;
    match work.take(alloc, line, &mut text) {
        Ok(()) => Ok(text),
        Err(status) => Err(in_memory(status)),
    }
}

/// What stands behind all lines.
pub(crate) fn print_end<W: Work>(alloc: Global, work: &W) -> Result<MemorySink, Status>
    ensures memory { IfErr result (λ status. status ≡ Status.OutOfMemory) }
    ensures prints { (lines : List (List ℕ)) → W.took work.now lines
        → PrintsEnd (W.task work.now) result lines }
{
    let mut text = empty(alloc)?;
    match work.close(alloc, &mut text) {
        Status::Done => Ok(text),
        _ => Err(Status::OutOfMemory),
    }
}
