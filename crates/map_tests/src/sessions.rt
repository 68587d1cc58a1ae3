//! Calls of `session_carrier`.

use session_carrier::{accounting_session, class_of, fresh, read_class, read_state, state_of};
use std::alloc::Global;
use std::test::Fail;

fn is_fresh(alloc: Global) -> Result<bool, Fail> {
    let session = fresh(alloc, b"agent.example", 7, 0)?;
    Ok(session.as_slice() == b"agent.example;7;0".as_slice())
}

/// Whether an accounting session of these parts is this text.
fn is_session(
    alloc: Global,
    host: &[u8],
    client: &[u8],
    id: &[u8],
    wanted: &[u8],
) -> Result<bool, Fail> {
    let session = accounting_session(alloc, host, client, id)?;
    Ok(session.as_slice() == wanted)
}

#[test]
fn texts_of_sessions(rt: HostRuntime) -> Result<(), Fail> {
    assert!(rt; is_fresh(rt.alloc())?);
    assert!(rt;
        is_session(
            rt.alloc(),
            b"agent.example",
            b"nas1",
            b"A1",
            b"agent.example;0;0;acct;nas1;4131"
        )?
    );
    assert!(rt;
        is_session(
            rt.alloc(),
            b"agent.example",
            b"nas1",
            b"",
            b"agent.example;0;0;acct;nas1;"
        )?
    );
    assert!(rt; is_session(rt.alloc(), b"/", b" ", b"\xfe\x0f", b"/;0;0;acct; ;fe0f")?);
    Ok(())
}

fn is_class(alloc: Global) -> Result<bool, Fail> {
    let class = class_of(alloc, b"agent.example;7;0")?;
    Ok(class.as_slice() == b"Diameter/agent.example;7;0".as_slice())
}

fn is_state(alloc: Global) -> Result<bool, Fail> {
    let state = state_of(alloc, b"home.example", b"example", b"agent.example;7;0")?;
    Ok(state.as_slice() == b"Diameter/home.example/example/agent.example;7;0".as_slice())
}

/// Whether a State is cut at its first two slashes behind the prefix.
fn reads_state() -> bool {
    match read_state(b"Diameter/h/r/a/b;1") {
        Some(state) => {
            state.host == b"h".as_slice()
                && state.realm == b"r".as_slice()
                && state.session == b"a/b;1".as_slice()
        }
        None => false,
    }
}

fn reads_class() -> bool {
    match read_class(b"Diameter/a/b/") {
        Some(session) => session == b"a/b/".as_slice(),
        None => false,
    }
}

#[test]
fn carriers_both_ways(rt: HostRuntime) -> Result<(), Fail> {
    assert!(rt; is_class(rt.alloc())?);
    assert!(rt; is_state(rt.alloc())?);
    assert!(rt; reads_state());
    assert!(rt; reads_class());
    Ok(())
}
