//! The book's own answers to the home server (RFC 6733, sections 6.2 and 8.5.2).

ghost use Rattle.std.specs.Prelude.{◌≡◌, ◌≤◌, length, IfOk, OnOk};
ghost use Rattle.diameter_message.specs.Writer.{list_length, Puts};
ghost use Rattle.session_book.specs.Answers as specs;

use crate::aborts::Asked;
use diameter_message::avp_codes::{RESULT_CODE, SESSION_ID};
use diameter_message::command_codes::ABORT_SESSION;
use diameter_message::command_flags::PROXIABLE;
use diameter_message::{Header, MessageWriter};
use std::alloc::Global;
use wire_core::{NoMemory, Octets};

/// The longest Session-Id that an answer repeats (profile).
const LONGEST_ECHO: usize = 4096;

fn answer_header(asked: &Asked) -> Header
    ensures { result ≡ specs.answer_header asked.now }
{
    Header {
        flags: asked.flags & PROXIABLE,
        command: ABORT_SESSION,
        application: asked.application,
        hop: asked.hop,
        end: asked.end,
    }
}

/// Puts the Session-Id, where it is short enough.
fn put_session(writer: &mut MessageWriter, session: &[u8]) -> Result<(), NoMemory>
    requires { list_length writer.old ≡ 0 }
    ensures { OnOk result (Puts writer.old writer.new (specs.echo session.now) 4107) }
{
    if session.len() <= LONGEST_ECHO {
        writer.put_plain(SESSION_ID, session)
    } else {
        Ok(())
    }
}

/// The Abort-Session-Answer with this Result-Code from an agent of this identity and realm.
pub(crate) fn write_answer(
    alloc: Global,
    host: &[u8],
    realm: &[u8],
    asked: &Asked,
    session: &[u8],
    code: u32,
) -> Result<Octets, NoMemory>
    requires host { length host.now ≤ 255 }
    requires realm { length realm.now ≤ 255 }
    ensures { IfOk result
        (λ o. o ≡ specs.answer_text host.now realm.now asked.now session.now code) }
{
    let mut writer = MessageWriter::new(alloc, answer_header(asked))?;
    put_session(&mut writer, session)?;
    writer.put_number(RESULT_CODE, code)?;
    writer.put_origin(host, realm)?;
    Ok(writer.finish())
}
