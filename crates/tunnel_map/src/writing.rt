//! The group of a tag.

ghost use Rattle.std.specs.Prelude.{◌≡◌, ◌<◌, ◌≤◌, [], ◌∷◌, length, Err, OnOk, OnErr};
ghost use Rattle.radius_packet.specs.Views.{attribute_view};
ghost use Rattle.diameter_avp.specs.Avps.{avps_text};
ghost use Rattle.diameter_avp.specs.Writer.{with_avp};
ghost use Rattle.tunnel_map.specs.Groups.{group, members};
ghost use Rattle.tunnel_map.specs.Writing.{Extends, with_avps};

use crate::tagged::tag_of;
use diameter_avp::{AvpWriter, WriteFault};
use radius_packet::{Attribute, Packet};

/// The code of a Tunneling AVP.
const TUNNELING: u32 = 401;

/// Puts the member of an attribute at the end, where the attribute has this tag.
fn put_member(out: &mut AvpWriter, attribute: &Attribute<'_>, tag: u8) -> Result<(), WriteFault>
    ensures ok { OnOk result
        (out.new ≡ with_avps out.old (members tag (attribute_view attribute.now ∷ []))) }
    ensures too_long { result ≡ Err WriteFault.TooLong
        → 65516 < length
        (avps_text (with_avps out.old (members tag (attribute_view attribute.now ∷ []))).list) }
    ensures short { OnOk result
        (length (avps_text out.old.list) ≤ 65516 → length (avps_text out.new.list) ≤ 65516) }
    ensures err { OnErr result (out.new ≡ out.old) }
{
    let Some(tagged) = tag_of(attribute.code, attribute.value) else {
        return Ok(());
    };
    if tagged.tag != tag {
        return Ok(());
    }
    if tagged.number {
        let mut number = [0; 4];
        number[1..].copy_from_slice(tagged.body);
        out.put(attribute.code.into(), None, true, &number)
    } else {
        out.put(attribute.code.into(), None, true, tagged.body)
    }
}

/// Writes the group of a tag at the end of a list: a Tunneling AVP that holds a member for each tagged attribute of the
/// packet with this tag, in order (RFC 4005, section 7.1). `TooLong` comes where the list would pass 65,516 octets.
/// After a refusal the group may be open, so that the list can only be dropped.
pub fn write_group(packet: &Packet<'_>, tag: u8, out: &mut AvpWriter) -> Result<(), WriteFault>
    ensures ok { OnOk result (out.new ≡ with_avp out.old (group tag packet.now.attributes)) }
    ensures too_long { result ≡ Err WriteFault.TooLong
        → 65516 < length (avps_text (with_avp out.old (group tag packet.now.attributes)).list) }
    ensures short { OnOk result (length (avps_text out.new.list) ≤ 65516) }
    ensures err { OnErr result (Extends out.old out.new) }
{
    let group = out.begin_group(TUNNELING, true)?;
    for attribute in packet.attributes() {
        put_member(out, &attribute, tag)?;
    }
    out.end_group(group);
    Ok(())
}
