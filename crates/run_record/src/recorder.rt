//! The job of the thread that writes a record.

ghost use Rattle.std.specs.Prelude.{◌≡◌};
ghost use Rattle.turnstile.specs.Passes.{known, table_of};
ghost use Rattle.run_record.specs.Recordings.{CanRecord, Records, Wrote};

use crate::entry::{Entries, EntryWriter};
use crate::queue::{Asked, Given, Queue, ask, first_moment};
use std::alloc::Global;
use std::sync::{Arc, Wait};
use turnstile::{Pass, Turnstile};
use wire_core::Put;
use wire_devices::Job;

/// Takes entries from a queue and writes them, until no further one comes or a write fails.
#[derive(Drop)]
pub struct Recorder<E> {
    pub(crate) alloc: Global,
    pub(crate) turnstile: Arc<Turnstile<Queue>, Global>,
    pub(crate) pass: Pass<Queue>,
    pub(crate) writer: E,
}

/// What is left of a recorder.
#[derive(Drop)]
pub struct RecorderEnd<E> {
    pub(crate) pass: Pass<Queue>,
    pub(crate) writer: E,
}

/// Takes what waits, writes it, and pauses. It gives the room for further entries, and none after the last.
fn record_once<R: Wait, E: EntryWriter>(
    rt: &R,
    turnstile: &Turnstile<Queue>,
    pass: &mut Pass<Queue>,
    writer: &mut E,
    room: Entries,
) -> Option<Entries>
    requires { table_of pass.old ≡ turnstile.now }
    ensures table { table_of pass.new ≡ table_of pass.old }
    ensures records { Records E.stands E.faults (known pass.old) (known pass.new) writer.old
        writer.new }
{
    let Given { entries, over } = ask(rt, turnstile, pass, Asked::Take { room });
    match first_moment(entries.as_slice()) {
        None if over => return None,
        None => {}
        Some(moment) => {
            if writer.write(entries.as_slice()) == Put::Failed {
                ask(rt, turnstile, pass, Asked::Stop { moment });
                return None;
            }
        }
    }
    // Who takes again at once finds few entries, and delays those who put more.
    writer.rest();
    Some(entries.cleared())
}

impl<E: EntryWriter + Send + Drop + 'static> Job for Recorder<E> {
    type Done = RecorderEnd<E>;

    ghost can = { CanRecord };

    ghost gives = { Wrote E.stands E.faults };

    fn run<R: Wait>(self, rt: &R) -> RecorderEnd<E> {
        let Recorder {
            alloc,
            turnstile,
            mut pass,
            mut writer,
        } = self;
        let mut room = Entries::from_vec(Vec::new(alloc));
        for _ in rt.forever() {
            match record_once(rt, &turnstile, &mut pass, &mut writer, room) {
                Some(cleared) => room = cleared,
                None => return RecorderEnd { pass, writer },
            }
        }
        unreachable!()
    }
}
