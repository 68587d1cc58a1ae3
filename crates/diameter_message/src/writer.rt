//! Writing a message.

ghost use Rattle.std.specs.Prelude.{◌≡◌, ◌<◌, ◌^◌, ◌↔◌, [], length, IfOk, OnOk, OnErr};
ghost use Rattle.std.specs.Borrow.{sem};
ghost use Rattle.diameter_avp.specs.Avps.{avps_text, made};
ghost use Rattle.diameter_avp.specs.Writer.{with_avp};
ghost use Rattle.diameter_message.specs.Message.{IsMessage, header_text, message_text};
ghost use Rattle.diameter_message.specs.Writer.{begun, KeepsFront};
ghost use Rattle.diameter_message.specs.Lending.{LendsAvps};

use crate::header::Header;
use diameter_avp::{AvpWriter, WriteFault};
use std::alloc::Global;
use std::marker::Model;
use wire_core::{NoMemory, Octets, put_u24, put_u32};

/// A message in the making. Contracts see its header and its AVPs.
#[derive(Drop)]
pub struct MessageWriter {
    header: Header,
    writer: AvpWriter,
}

impl Model for MessageWriter {
    ghost use Rattle.diameter_message.specs.Writer.{MessageWriterParts};
    ghost use Rattle.diameter_message.specs.Message.{IsHeader};

    ghost Value = { MessageWriterParts };

    ghost view = { λ w. record { header = w.header; avps = w.writer } };

    ghost invariant = { λ w. IsHeader w.header };
}

/// The header's octets, with 0 as the length.
#[tactic(auto, unfolding(crate::specs::Message::header_text))]
fn header_octets(header: Header) -> [u8; 20]
    requires { header.command < 2 ^ 24 }
    ensures { result ≡ header_text 0 header }
{
    let mut octets = [0; 20];
    octets[0] = 1;
    octets[4] = header.flags;
    put_u24(&mut octets, 5, header.command);
    put_u32(&mut octets, 8, header.application);
    put_u32(&mut octets, 12, header.hop);
    put_u32(&mut octets, 16, header.end);
    octets
}

impl MessageWriter {
    /// A message of this header and no AVPs.
    pub fn new(alloc: Global, header: Header) -> Result<MessageWriter, NoMemory>
        requires { header.command < 2 ^ 24 }
        ensures { IfOk result (λ w. w ≡ begun header []) }
    {
        let writer = AvpWriter::new(alloc, &header_octets(header))?;
        Ok(MessageWriter { header, writer })
    }

    /// The writer of the AVPs. Its front is the header, which stays as it is.
    pub fn avps(&mut self) -> &mut AvpWriter
        ensures* writes_back { sem 𝓛 (LendsAvps self.entry result) }
        ensures value { result.now ≡ self.old.avps }
    {
        &mut self.writer
    }

    /// Puts an AVP at the end, as `AvpWriter::put` does.
    pub fn put(
        &mut self,
        code: u32,
        vendor: Option<u32>,
        mandatory: bool,
        body: &[u8],
    ) -> Result<(), WriteFault>
        ensures ok { OnOk result (self.new ≡ record self.old
            { avps = with_avp self.old.avps (made code vendor mandatory body.now) }) }
        ensures too_long { (result ≡ Err WriteFault.TooLong)
            ↔ (65516 < length
            (avps_text (with_avp self.old.avps (made code vendor mandatory body.now)).list)) }
        ensures err { OnErr result (self.new ≡ self.old) }
    {
        self.writer.put(code, vendor, mandatory, body)
    }

    /// The message.
    pub fn finish(self) -> Octets
        requires { KeepsFront self }
        ensures text { result ≡ message_text self.header (avps_text self.avps.list) }
        ensures message { IsMessage result self.header (avps_text self.avps.list) }
    {
        let mut octets = self.writer.finish();
        let length = octets.len() as u32;
        octets.overwrite(1, &length.to_be_bytes()[1..]);
        octets
    }
}
