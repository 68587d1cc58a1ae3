//! What the attributes of a reply give in an answer (RFC 4005, sections 3.2 and 9.2; RFC 2865, section 5.26).

ghost use Rattle.std.specs.Prelude.{◌≡◌, ◌≤◌, ◌++◌, [], ◌∷◌, length, OnOk, if◌then◌else◌};
ghost use Rattle.radius_packet.specs.Views.{attribute_view};
ghost use Rattle.diameter_avp.specs.Avps.{avps_text};
ghost use Rattle.diameter_message.specs.PlainAvps.{plain_avp};
ghost use Rattle.diameter_message.specs.Writer.{list_length, with_avps};
ghost use Rattle.attribute_table.specs.Rows.{row_of};
ghost use Rattle.attribute_table.specs.Vendors.{vendor_parts};
ghost use Rattle.translation.specs.Images.{vendor_avps};
ghost use Rattle.translation.specs.Judging as judging;
ghost use Rattle.reverse_map.specs.Answers as specs;

use crate::codes::{
    ACCESS_ACCEPT, ACCESS_CHALLENGE, ACCESS_REJECT, SESSION_TIMEOUT, STATE, VENDOR_SPECIFIC,
};
use attribute_table::{forward, is_key, row_of_type, vsa};
use diameter_message::{MessageWriter, avp_codes};
use radius_packet::{Attribute, Packet};
use translation::{Class, goes_back, put_parts, takes_vendors};
use wire_core::NoMemory;

/// What a reply with this code is.
pub(crate) fn class_of(code: u8) -> Class
    ensures { result ≡ specs.class_of code }
{
    match code {
        ACCESS_ACCEPT => Class::Success,
        ACCESS_CHALLENGE => Class::Challenge,
        ACCESS_REJECT => Class::Refusal,
        _ => Class::Bad,
    }
}

/// Whether a part of a Vendor-Specific attribute is a key.
fn has_key_part(value: &[u8]) -> bool
    ensures { result ≡ judging.has_key_part (vendor_parts value.now) }
{
    match vsa(value) {
        Some(mut parts) => parts.any(|part| is_key(part.code.into(), Some(part.vendor))),
        None => false,
    }
}

fn is_key_attribute(attribute: &Attribute<'_>) -> bool
    ensures { result ≡ judging.is_key_attribute (attribute_view attribute.now) }
{
    is_key(attribute.code.into(), None)
        || attribute.code == VENDOR_SPECIFIC && has_key_part(attribute.value)
}

/// Whether a reply has a key.
pub(crate) fn has_key(reply: &Packet<'_>) -> bool
    ensures { result ≡ specs.has_key reply.now }
{
    reply.attributes().any(|a| is_key_attribute(&a))
}

/// Puts an AVP without a vendor, where it is taken.
fn put_taken(
    writer: &mut MessageWriter,
    taken: bool,
    code: u32,
    value: &[u8],
) -> Result<(), NoMemory>
    requires { length (avps_text
        (writer.old.avps.list ++ (if taken then plain_avp code value.now ∷ [] else []))) ≤ 65516 }
    ensures { OnOk result
        (writer.new ≡ with_avps writer.old (if taken then plain_avp code value.now ∷ [] else [])) }
{
    if taken {
        writer.put_with_room(code, None, true, value)
    } else {
        Ok(())
    }
}

/// Puts the parts of a Vendor-Specific attribute, where they are taken.
fn put_vendor(writer: &mut MessageWriter, class: Class, value: &[u8]) -> Result<(), NoMemory>
    requires { length (avps_text (writer.old.avps.list ++ specs.vendor_images class value.now))
        ≤ 65516 }
    ensures { OnOk result
        (writer.new ≡ with_avps writer.old (specs.vendor_images class value.now)) }
{
    if takes_vendors(class) {
        put_parts(writer, value)
    } else {
        Ok(())
    }
}

/// Puts the image of an attribute that has a row of this answer.
fn put_row(
    writer: &mut MessageWriter,
    class: Class,
    attribute: &Attribute<'_>,
) -> Result<(), NoMemory>
    requires { length (avps_text (writer.old.avps.list
        ++ specs.row_avps class (row_of attribute.now.code) attribute.now.value.now)) ≤ 65516 }
    ensures { OnOk result (writer.new ≡ with_avps writer.old
        (specs.row_avps class (row_of attribute.now.code) attribute.now.value.now)) }
{
    let Some(row) = row_of_type(attribute.code) else {
        return Ok(());
    };
    if !goes_back(class, &row) {
        return Ok(());
    }
    match forward(&row, attribute.value) {
        Ok(image) => writer.put_with_room(row.avp, None, true, image.octets()),
        Err(_) => Ok(()),
    }
}

/// Puts what an attribute gives.
fn put_image(
    writer: &mut MessageWriter,
    class: Class,
    attribute: &Attribute<'_>,
) -> Result<(), NoMemory>
    requires { length (avps_text
        (writer.old.avps.list ++ specs.image class (attribute_view attribute.now))) ≤ 65516 }
    ensures { OnOk result
        (writer.new ≡ with_avps writer.old (specs.image class (attribute_view attribute.now))) }
{
    let value = attribute.value;
    match attribute.code {
        VENDOR_SPECIFIC => put_vendor(writer, class, value),
        SESSION_TIMEOUT => {
            let taken = takes_vendors(class) && value.len() == 4;
            put_taken(writer, taken, avp_codes::SESSION_TIMEOUT, value)
        }
        STATE => put_taken(writer, class == Class::Challenge, avp_codes::STATE, value),
        _ => put_row(writer, class, attribute),
    }
}

/// Puts what the attributes of a reply give, in order.
pub(crate) fn put_images(
    writer: &mut MessageWriter,
    class: Class,
    reply: &Packet<'_>,
) -> Result<(), NoMemory>
    requires { list_length writer.old ≤ 30000 }
    ensures { OnOk result
        (writer.new ≡ with_avps writer.old (specs.images class reply.now.attributes)) }
{
    for attribute in reply.attributes() {
        put_image(writer, class, &attribute)?;
    }
    Ok(())
}
