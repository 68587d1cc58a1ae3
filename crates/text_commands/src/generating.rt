//! The command `generate`.

ghost use Rattle.std.specs.Prelude.{◌≡◌, ◌≢◌, ◌≤◌};
ghost use Rattle.text_commands.specs.Generated.{GeneratesBy, WriteCounts};

use agent_status::Status;
use generated_logins::GenerateFault;
use std::alloc::Global;
use wire_core::Sink;

/// Writes the transcript of so many logins of one client, some of them repeated, and their answers. The seed decides
/// which requests come again, and which answers refuse.
pub fn generate<K: Sink>(alloc: Global, count: u32, seed: u32, output: &mut K) -> Status
    requires some { 1 ≤ count }
    requires most { count ≤ 1000000 }
    ensures begun { result ≢ Status.Usage }
    ensures ends { GeneratesBy result count seed (K.written output.old) (K.written output.new) }
    ensures counts { WriteCounts result (K.faults output.old) (K.faults output.new) }
{
    match generated_logins::generate(alloc, count, seed, output) {
        Ok(()) => Status::Done,
        Err(GenerateFault::Write) => Status::WriteFault,
        Err(GenerateFault::NoMemory) => Status::OutOfMemory,
    }
}
