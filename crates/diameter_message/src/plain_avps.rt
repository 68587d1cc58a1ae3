//! What every message of the agent's own is written with.

ghost use Rattle.std.specs.Prelude.{◌≡◌, ◌+◌, ◌≤◌, [], ◌∷◌, ◌++◌, length, OnOk, OnErr};
ghost use Rattle.wire_core.specs.Numbers.{u32 as text32};
ghost use Rattle.diameter_avp.specs.Avps.{avps_text, made};
ghost use Rattle.diameter_message.specs.Writer.{list_length, with_avps, Puts, PutsPart};
ghost use Rattle.diameter_message.specs.PlainAvps.{origin_avps, plain_avp};

use crate::avp_codes::{ORIGIN_HOST, ORIGIN_REALM};
use crate::writer::MessageWriter;
use diameter_avp::WriteFault;
use wire_core::NoMemory;

impl MessageWriter {
    /// Puts an AVP that has room, as `put` does.
    pub fn put_with_room(
        &mut self,
        code: u32,
        vendor: Option<u32>,
        mandatory: bool,
        body: &[u8],
    ) -> Result<(), NoMemory>
        requires { length
            (avps_text (self.old.avps.list ++ made code vendor mandatory body.now ∷ [])) ≤ 65516 }
        ensures ok { OnOk result
            (self.new ≡ with_avps self.old (made code vendor mandatory body.now ∷ [])) }
        ensures err { OnErr result (self.new ≡ self.old) }
    {
        match self.put(code, vendor, mandatory, body) {
            Ok(()) => Ok(()),
            Err(WriteFault::NoMemory) => Err(NoMemory),
            Err(WriteFault::TooLong) => unreachable!(),
        }
    }

    /// Puts an AVP with M set and V clear: a header of eight octets, the body, and up to three octets of padding.
    pub fn put_plain(&mut self, code: u32, body: &[u8]) -> Result<(), NoMemory>
        requires { list_length self.old + length body.now + 11 ≤ 65516 }
        ensures ok { OnOk result
            (Puts self.old self.new (plain_avp code body.now ∷ []) (length body.now + 11)) }
        ensures err { OnErr result (self.new ≡ self.old) }
    {
        self.put_with_room(code, None, true, body)
    }

    /// Puts a number of four octets, with M set and V clear.
    pub fn put_number(&mut self, code: u32, value: u32) -> Result<(), NoMemory>
        requires { list_length self.old + 15 ≤ 65516 }
        ensures ok { OnOk result (Puts self.old self.new (plain_avp code (text32 value) ∷ []) 15) }
        ensures err { OnErr result (self.new ≡ self.old) }
    {
        self.put_plain(code, &value.to_be_bytes())
    }

    /// Puts Origin-Host and Origin-Realm. After want of memory Origin-Host alone may have been put.
    pub fn put_origin(&mut self, host: &[u8], realm: &[u8]) -> Result<(), NoMemory>
        requires { list_length self.old + length host.now + length realm.now + 22 ≤ 65516 }
        ensures ok { OnOk result (Puts self.old self.new (origin_avps host.now realm.now)
            (length host.now + length realm.now + 22)) }
        ensures err { OnErr result (PutsPart self.old self.new (origin_avps host.now realm.now)) }
    {
        self.put_plain(ORIGIN_HOST, host)?;
        self.put_plain(ORIGIN_REALM, realm)
    }
}
