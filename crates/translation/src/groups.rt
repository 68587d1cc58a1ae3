//! The groups of a request's tunnels (RFC 4005, section 7.1).

ghost use Rattle.std.specs.Prelude.{◌≡◌, ◌≤◌, ◌<◌, [], ◌∷◌, ◌++◌, length, slice_set, true, OnOk};
ghost use Rattle.diameter_avp.specs.Avps.{avps_text};
ghost use Rattle.diameter_message.specs.Writer.{with_avps};
ghost use Rattle.tunnel_map.specs.Groups.{group};
ghost use Rattle.tunnel_map.specs.Views.{tagged_view};
ghost use Rattle.translation.specs.Passing as passing;

use diameter_avp::WriteFault;
use diameter_message::MessageWriter;
use radius_packet::Packet;
use tunnel_map::write_group;
use wire_core::NoMemory;

/// Puts the group of a tag, which has room.
fn put_group(writer: &mut MessageWriter, packet: &Packet<'_>, tag: u8) -> Result<(), NoMemory>
    requires { length (avps_text (writer.old.avps.list ++ group tag packet.now.attributes ∷ []))
        ≤ 65516 }
    ensures { OnOk result
        (writer.new ≡ with_avps writer.old (group tag packet.now.attributes ∷ [])) }
{
    match write_group(packet, tag, writer.avps()) {
        Ok(()) => Ok(()),
        Err(WriteFault::NoMemory) => Err(NoMemory),
        Err(WriteFault::TooLong) => unreachable!(),
    }
}

/// Puts the group of a tag that hasn't been seen.
pub(crate) fn put_unseen_group(
    writer: &mut MessageWriter,
    packet: &Packet<'_>,
    tag: u8,
    tags: &mut [bool; 32],
) -> Result<(), NoMemory>
    requires small { tag < 32 }
    requires room { length (avps_text
        (writer.old.avps.list ++ passing.group_after packet.now.attributes tags.old tag)) ≤ 65516 }
    ensures put { OnOk result (writer.new
        ≡ with_avps writer.old (passing.group_after packet.now.attributes tags.old tag)) }
    ensures noted { OnOk result (tags.new ≡ slice_set tags.old tag true) }
{
    let place = usize::from(tag);
    if tags[place] {
        return Ok(());
    }
    tags[place] = true;
    put_group(writer, packet, tag)
}
