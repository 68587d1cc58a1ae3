//! Records that are written as lines.

use agent_events::Input;
use record_text::RecordText;
use run_record::{Entry, EntryWriter};
use std::alloc::Global;
use std::rt;
use std::sync::Wait;
use std::test::Fail;
use wire_core::{MemorySink, NoMemory, Put};

/// Writes two entries to a sink of which these writes fail. Whether the writer says so, and this text stands there.
fn is_written<R: Wait + rt::Clock + Send + Drop + 'static>(
    rt: R,
    alloc: Global,
    failing: &[usize],
    wanted: Put,
    text: &str,
) -> Result<bool, NoMemory> {
    let sink = MemorySink::new(alloc, 256, failing)?;
    let mut writer = RecordText::new(rt, alloc, sink);
    let mut entries = Vec::new(alloc);
    entries.push(Entry {
        moment: 7,
        input: Input::Up,
    })?;
    entries.push(Entry {
        moment: 12,
        input: Input::Leave,
    })?;
    let put = writer.write(entries.as_slice());
    writer.rest();
    Ok(put == wanted && writer.sink.as_slice() == text.as_bytes())
}

#[test]
fn entries_are_written_as_lines(rt: HostRuntime) -> Result<(), Fail> {
    let alloc = rt.alloc();
    assert!(rt; is_written(rt, alloc, &[], Put::Done, "7 up\n12 leave\n")?);
    assert!(rt; is_written(rt, alloc, &[0], Put::Failed, "7 up\n12")?);
    Ok(())
}
