//! The start and the end of a recording.

ghost use Rattle.std.specs.Prelude.{◌≡◌, [], None, IfOk, IfErr, true, false};
ghost use Rattle.wire_core.specs.Counts.{Rose};
ghost use Rattle.turnstile.specs.Passes.{known};
ghost use Rattle.turnstile.specs.Turns.{StartsWith, of};
ghost use Rattle.run_record.specs.Queues.{stops, takes};
ghost use Rattle.run_record.specs.Recordings.{IsRecorderOf, IsSpent, IsWritten, writer_of};

use crate::entry::{Entries, EntryWriter};
use crate::queue::Queue;
use crate::recorder::{Recorder, RecorderEnd};
use crate::sender::EntrySender;
use std::alloc::Global;
use std::sync::{Arc, Wait};
use turnstile::{Pass, Turnstile};
use wire_devices::{Crew, ThreadHelper};

/// A recording that wasn't started, with its writer.
#[derive(Drop)]
pub struct Unrecorded<E> {
    pub writer: E,
    /// Whether the thread was refused. Else memory was wanting.
    pub refused: bool,
}

/// What came of a recording.
#[derive(Drop)]
pub struct Recorded<E> {
    pub writer: E,
    /// The moment of the first entry that wasn't kept or written, where one wasn't.
    pub closed: Option<u64>,
}

/// A queue, by its two ends. Without memory the writer comes back.
fn make_ends<E>(alloc: Global, writer: E) -> Result<(EntrySender, Recorder<E>), E>
    ensures told { IfOk result (λ ends. ends.0.told ≡ []) }
    ensures one_queue { IfOk result (λ ends. IsRecorderOf ends.0.queue ends.1) }
    ensures writer { IfOk result (λ ends. writer_of ends.1 ≡ writer) }
    ensures same { IfErr result (λ back. back ≡ writer) }
{
    let Ok((turnstile, mut pass)) = Turnstile::start(alloc, Queue::new(alloc)) else {
        return Err(writer);
    };
    let Ok(turnstile) = Arc::new(alloc, turnstile) else {
        return Err(writer);
    };
    let Ok(share) = Arc::try_clone(&turnstile) else {
        return Err(writer);
    };
    let recorder = Recorder {
        alloc,
        turnstile: share,
        pass: turnstile.split(&mut pass),
        writer,
    };
    let sender = EntrySender {
        turnstile,
        pass,
        alloc,
        held: Entries::from_vec(Vec::new(alloc)),
    };
    Ok((sender, recorder))
}

/// Starts a thread that writes what the sender is given.
pub fn start_recording<E, W>(
    alloc: Global,
    writer: E,
    crew: &mut W,
) -> Result<(EntrySender, ThreadHelper<Recorder<E>>), Unrecorded<E>>
where
    E: EntryWriter + Send + Drop + 'static,
    W: Crew<Recorder<E>>,
    ensures told { IfOk result (λ ends. ends.0.told ≡ []) }
    ensures one_queue { IfOk result (λ ends. IsRecorderOf ends.0.queue ends.1) }
    ensures writer { IfOk result (λ ends. writer_of ends.1 ≡ writer) }
    ensures same { IfErr result (λ back. back.writer ≡ writer) }
    ensures refused { IfErr result
        (λ back. back.refused ≡ true → Rose (W.faults crew.old) (W.faults crew.new)) }
    ensures unrefused { IfErr result
        (λ back. back.refused ≡ false → W.faults crew.new ≡ W.faults crew.old) }
    ensures started { IfOk result (λ ends. W.faults crew.new ≡ W.faults crew.old) }
{
    let (sender, recorder) = match make_ends(alloc, writer) {
        Ok(ends) => ends,
        Err(writer) => {
            return Err(Unrecorded {
                writer,
                refused: false,
            });
        }
    };
    match crew.start(recorder) {
        Ok(helper) => Ok((sender, helper)),
        Err(recorder) => Err(Unrecorded {
            writer: recorder.writer,
            refused: true,
        }),
    }
}

/// Ends a queue at which nobody else is. It gives the moment of the first entry that wasn't kept or taken.
fn close_queue(sender: EntrySender, theirs: Pass<Queue>) -> Option<u64>
    requires { IsSpent sender.queue theirs × (sender.held ≡ []) }
    ensures begins { StartsWith sender.told (takes (of 3 (known theirs).seen)) }
    ensures whole { result ≡ None → sender.told ≡ takes (of 3 (known theirs).seen) }
    ensures unstopped { result ≡ None → stops (of 3 (known theirs).seen) ≡ [] }
{
    let EntrySender {
        turnstile,
        mut pass,
        alloc: _,
        held: _,
    } = sender;
    turnstile.join(&mut pass, theirs);
    let (queue, _) = turnstile.close(pass);
    queue.first_lost()
}

/// Waits until all that the sender was given is written, or all that could be.
pub fn finish_recording<R, E, W>(
    rt: &R,
    crew: &mut W,
    mut sender: EntrySender,
    helper: ThreadHelper<Recorder<E>>,
) -> Recorded<E>
where
    R: Wait,
    E: EntryWriter + Send + Drop + 'static,
    W: Crew<Recorder<E>>,
    requires { IsRecorderOf sender.queue helper }
    ensures wrote { (base : E.Base) → E.stands (writer_of helper) base []
        → IsWritten E.stands base result.writer result.closed sender.told }
    ensures sound { result.closed ≡ None → E.faults result.writer ≡ E.faults (writer_of helper) }
    ensures faults { W.faults crew.new ≡ W.faults crew.old }
{
    sender.end(rt);
    let RecorderEnd { pass, writer } = crew.finish(helper);
    Recorded {
        writer,
        closed: close_queue(sender, pass),
    }
}
