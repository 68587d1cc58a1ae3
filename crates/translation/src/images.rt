//! What an attribute gives in a request (RFC 4005, sections 3.1, 7 and 9).

ghost use Rattle.std.specs.Prelude.{◌≡◌, ◌≤◌, ◌||◌, ◌++◌, length, IsTrue, OnOk};
ghost use Rattle.radius_packet.specs.Views.{attribute_view};
ghost use Rattle.diameter_avp.specs.Avps.{avps_text};
ghost use Rattle.diameter_message.specs.Writer.{with_avps};
ghost use Rattle.attribute_table.specs.Rows.{row_of};
ghost use Rattle.attribute_table.specs.Vendors.{vendor_parts};
ghost use Rattle.translation.specs.Images as images;
ghost use Rattle.translation.specs.Passing as passing;
ghost use Rattle.translation.specs.Values.{is_good};

use crate::codes::{CLASS, STATE, VENDOR_SPECIFIC};
use crate::direction::{Direction, goes};
use crate::groups::put_unseen_group;
use crate::seen::Seen;
use attribute_table::{forward_checked, row_of_type, vsa};
use diameter_message::MessageWriter;
use radius_packet::{Attribute, Packet};
use session_carrier::{read_class, read_state};
use tunnel_map::tag_of;
use wire_core::NoMemory;

/// The type of the attributes that carry a session.
fn carrier_code(direction: Direction) -> u8
    ensures { result ≡ images.carrier_code direction }
{
    match direction {
        Direction::Access => STATE,
        Direction::Accounting => CLASS,
    }
}

/// Whether a value of this type carries a session.
fn carries_session(direction: Direction, value: &[u8]) -> bool
    ensures { result ≡ images.carries_session direction value.now }
{
    match direction {
        Direction::Access => read_state(value).is_some(),
        Direction::Accounting => read_class(value).is_some(),
    }
}

/// Puts a State or Class, but for the first that carries a session.
fn put_carrier(
    writer: &mut MessageWriter,
    attribute: &Attribute<'_>,
    carries: bool,
    before: &mut bool,
) -> Result<(), NoMemory>
    requires { length (avps_text (writer.old.avps.list
        ++ passing.carrier_after before.old carries (attribute_view attribute.now))) ≤ 65516 }
    ensures put { OnOk result (writer.new ≡ with_avps writer.old
        (passing.carrier_after before.old carries (attribute_view attribute.now))) }
    ensures noted { OnOk result (before.new ≡ (before.old || carries)) }
{
    if carries && !*before {
        *before = true;
        return Ok(());
    }
    writer.put_with_room(attribute.code.into(), None, true, attribute.value)
}

/// Puts the parts of a Vendor-Specific attribute, where it has them. There is room.
pub fn put_parts(writer: &mut MessageWriter, value: &[u8]) -> Result<(), NoMemory>
    requires { length
        (avps_text (writer.old.avps.list ++ images.vendor_avps (vendor_parts value.now))) ≤ 65516 }
    ensures { OnOk result
        (writer.new ≡ with_avps writer.old (images.vendor_avps (vendor_parts value.now))) }
{
    let Some(parts) = vsa(value) else {
        return Ok(());
    };
    for part in parts {
        writer.put_with_room(part.code.into(), Some(part.vendor), false, part.body)?;
    }
    Ok(())
}

/// Puts the image of an attribute, where its row goes in this direction.
fn put_row(
    writer: &mut MessageWriter,
    direction: Direction,
    attribute: &Attribute<'_>,
) -> Result<(), NoMemory>
    requires good { IsTrue (is_good direction (attribute_view attribute.now)) }
    requires room { length (avps_text (writer.old.avps.list
        ++ images.row_avps direction (row_of attribute.now.code) attribute.now.value.now)) ≤ 65516 }
    ensures { OnOk result (writer.new ≡ with_avps writer.old
        (images.row_avps direction (row_of attribute.now.code) attribute.now.value.now)) }
{
    let Some(row) = row_of_type(attribute.code) else {
        return Ok(());
    };
    if !goes(direction, &row) {
        return Ok(());
    }
    let image = forward_checked(&row, attribute.value);
    writer.put_with_room(row.avp, None, true, image.octets())
}

/// Puts what an attribute of the packet gives in a request of this direction, and notes that it was seen. Its value has
/// the size and the text of its row, and there is room.
#[tactic(auto, unfolding(crate::specs::Passing::common_after, crate::specs::Passing::noted))]
pub fn put_common(
    writer: &mut MessageWriter,
    direction: Direction,
    packet: &Packet<'_>,
    attribute: &Attribute<'_>,
    seen: &mut Seen,
) -> Result<(), NoMemory>
    requires good { IsTrue (is_good direction (attribute_view attribute.now)) }
    requires room { length (avps_text (writer.old.avps.list ++ passing.common_after direction
        packet.now.attributes seen.old (attribute_view attribute.now))) ≤ 65516 }
    ensures put { OnOk result (writer.new ≡ with_avps writer.old (passing.common_after direction
        packet.now.attributes seen.old (attribute_view attribute.now))) }
    ensures noted { OnOk result
        (seen.new ≡ passing.noted direction seen.old (attribute_view attribute.now)) }
{
    if attribute.code == carrier_code(direction) {
        let carries = carries_session(direction, attribute.value);
        return put_carrier(writer, attribute, carries, &mut seen.carrier);
    }
    if attribute.code == VENDOR_SPECIFIC {
        return put_parts(writer, attribute.value);
    }
    match tag_of(attribute.code, attribute.value) {
        Some(tagged) => put_unseen_group(writer, packet, tagged.tag, &mut seen.tags),
        None => put_row(writer, direction, attribute),
    }
}
