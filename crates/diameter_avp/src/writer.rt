//! Writing a list of AVPs.

ghost use Rattle.std.specs.Prelude.{◌≡◌, ◌+◌, ◌<◌, ◌≤◌, ◌^◌, ◌↔◌, [], ◌∷◌, ◌++◌, length, IfOk, OnOk, OnErr};
ghost use Rattle.diameter_avp.specs.Avps.{IsAvps, avps_text, made};
ghost use Rattle.diameter_avp.specs.Writer.{GroupParts, IsOpen, once_ended, with_avp};
ghost use Rattle.diameter_avp.specs.declared.writer.WriteFault.TheVariants.{NoMemory};

use crate::append::{append_avp, overwrite_u24};
use crate::making::{length_of, make_avp};
use crate::reading::padded;
use std::alloc::{AllocError, Global};
use std::marker::Model;
use thiserror::Error;
use wire_core::{NoMemory, Octets};

/// What a list can take: a message of 65,536 octets less its header (profile).
const MAX_LIST: usize = 65_516;

/// The room that a list begins with, in octets: most messages need no more.
const FIRST_ROOM: usize = 512;

/// Why an AVP was not written.
#[derive(Clone, Copy, Debug, PartialEq, Eq, Error)]
pub enum WriteFault {
    #[error("the list of AVPs would be too long")]
    TooLong,
    #[error("out of memory")]
    NoMemory,
}

impl From<AllocError> for WriteFault {
    ghost from_gives = { λ _ fault. fault ≡ NoMemory };

    fn from(_e: AllocError) -> WriteFault {
        WriteFault::NoMemory
    }
}

/// A group that was begun in a list and isn't ended yet. Contracts see how many octets of the list
/// stand before it.
#[derive(Drop)]
pub struct Group {
    place: usize,
}

impl Model for Group {
    ghost use Rattle.std.specs.Prelude.{ℕ};

    ghost Value = { ℕ };

    ghost view = { λ g. g.place };
}

/// A list of AVPs in the making, behind octets that it began with. Contracts see both.
///
/// A group that is open is an AVP without a body, and `end_group` takes what was put after it into its
/// body. A group inside a group is to be ended first: once the outer one was ended, the inner one stays
/// without a body, and what was put in it stands behind it. So does a group that is open at `finish`.
#[derive(Drop)]
pub struct AvpWriter {
    octets: Vec<u8>,
    front: usize,
}

impl Model for AvpWriter {
    ghost use Rattle.diameter_avp.specs.Writer.{WriterParts, written, IsWritten};

    ghost Value = { WriterParts };

    ghost view = { λ w. written w.front w.octets.items };

    ghost invariant = { λ w. IsWritten w.front w.octets.items };
}

impl AvpWriter {
    /// An empty list behind these octets.
    pub fn new(alloc: Global, front: &[u8]) -> Result<AvpWriter, NoMemory>
        requires { length front.now ≤ 20 }
        ensures { IfOk result (λ w. w ≡ record { front = front.now; list = [] }) }
    {
        let mut octets = Vec::with_capacity(alloc, FIRST_ROOM)?;
        octets.extend_from_slice(front)?;
        Ok(AvpWriter {
            octets,
            front: front.len(),
        })
    }

    /// Puts an AVP at the end of the list, with zeros as padding and without the P flag.
    pub fn put(
        &mut self,
        code: u32,
        vendor: Option<u32>,
        mandatory: bool,
        body: &[u8],
    ) -> Result<(), WriteFault>
        ensures ok { OnOk result
            (self.new ≡ with_avp self.old (made code vendor mandatory body.now)) }
        ensures too_long { (result ≡ Err WriteFault.TooLong)
            ↔ (65516
            < length (avps_text (with_avp self.old (made code vendor mandatory body.now)).list)) }
        ensures err { OnErr result (self.new ≡ self.old) }
    {
        let avp = make_avp(code, vendor, mandatory, body);
        let length = length_of(&avp);
        let size = padded(length);
        if size > MAX_LIST - (self.octets.len() - self.front) {
            return Err(WriteFault::TooLong);
        }
        self.octets.reserve(size)?;
        append_avp(&mut self.octets, &avp, length as u32);
        Ok(())
    }

    /// Begins a group (RFC 6733, section 4.4), without a vendor and without the P flag. What is put
    /// until it is ended are its members.
    pub fn begin_group(&mut self, code: u32, mandatory: bool) -> Result<Group, WriteFault>
        ensures ok { OnOk result (self.new ≡ with_avp self.old (made code None mandatory [])) }
        ensures place { IfOk result (λ group. group ≡ length (avps_text self.old.list)) }
        ensures too_long { (result ≡ Err WriteFault.TooLong)
            ↔ (65516 < length (avps_text (with_avp self.old (made code None mandatory [])).list)) }
        ensures err { OnErr result (self.new ≡ self.old) }
    {
        let place = self.octets.len() - self.front;
        self.put(code, None, mandatory, &[])?;
        Ok(Group { place })
    }

    /// Ends a group: all that was put since it began becomes its body. A group inside it that is still
    /// open can't be ended any more.
    pub fn end_group(&mut self, group: Group)
        requires { (g : GroupParts) × IsOpen self.old.list group g }
        ensures { (g : GroupParts) → IsOpen self.old.list group g
            → self.new ≡ record self.old { list = once_ended g } }
    {
        let place = self.front + group.place;
        let length = (self.octets.len() - place) as u32;
        overwrite_u24(&mut self.octets, place + 5, length);
    }

    /// The octets that the list began with, and then the list.
    pub fn finish(self) -> Octets
        ensures text { result ≡ self.front ++ avps_text self.list }
        ensures avps { IsAvps (avps_text self.list) self.list }
        ensures short { length (avps_text self.list) ≤ 65516 }
    {
        Octets::from_vec(self.octets)
    }
}
