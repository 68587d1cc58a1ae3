//! The attributes of a packet.

ghost use Rattle.std.specs.Prelude.{◌≡◌, ◌++◌, Some, IfOk, OnOk};
ghost use Rattle.std.specs.String.{string_bytes};
ghost use Rattle.std.specs.List.{flat_map};
ghost use Rattle.attribute_table.specs.VendorViews.{part_view};
ghost use Rattle.attribute_table.specs.Vendors.{vendor_parts};
ghost use Rattle.radius_packet.specs.Views.{attribute_view};
ghost use Rattle.names.specs.Names.{avp_named};
ghost use Rattle.named_lines.specs.NamedText as named;

use crate::lines::{push_hex_line, push_line, push_vendor_line};
use attribute_table::{Vsa, VsaPart, vsa};
use names::{Kind, find_avp};
use radius_packet::{Attribute, Packet};
use std::alloc::Global;
use wire_core::NoMemory;

/// How many spaces stand before an attribute.
const INDENT: usize = 4;

/// Vendor-Specific (RFC 2865, section 5.26).
const VENDOR_SPECIFIC: u8 = 26;

/// The last octet that is a tag before a text (RFC 2868, section 3.3).
const LAST_TAG: u8 = 31;

/// The name of a part of a Vendor-Specific attribute.
#[tactic(auto, unfolding(crate::specs::NamedText::part_name))]
fn part_name(alloc: Global, vendor: u32, code: u8) -> Result<String, NoMemory>
    ensures { IfOk result (λ name. string_bytes name ≡ named.part_name vendor code) }
{
    Ok(format!(in alloc; "Vendor-{vendor}-Attr-{code}")?)
}

/// Appends the line of a part of a Vendor-Specific attribute.
fn push_part(alloc: Global, text: &mut Vec<u8>, part: VsaPart<'_>) -> Result<(), NoMemory>
    ensures { OnOk result
        (text.new.items ≡ text.old.items ++ named.part_line (part_view part.entry)) }
{
    let VsaPart { vendor, code, body } = part;
    let name = part_name(alloc, vendor, code)?;
    push_vendor_line(text, INDENT, &name, vendor, u32::from(code), body)
}

/// Appends the lines of the parts of a Vendor-Specific attribute.
fn push_parts(alloc: Global, text: &mut Vec<u8>, parts: Vsa<'_>) -> Result<(), NoMemory>
    ensures { OnOk result
        (text.new.items ≡ text.old.items ++ flat_map named.part_line parts.entry) }
{
    for part in parts {
        push_part(alloc, text, part)?;
    }
    Ok(())
}

/// Appends the lines of a Vendor-Specific attribute.
fn push_vendor(alloc: Global, text: &mut Vec<u8>, value: &[u8]) -> Result<(), NoMemory>
    ensures { OnOk result
        (text.new.items ≡ text.old.items ++ named.vendor_lines (vendor_parts value.now) value.now) }
{
    match vsa(value) {
        Some(parts) => push_parts(alloc, text, parts),
        None => push_hex_line(text, INDENT, "Vendor-Specific", value),
    }
}

/// Whether a tag stands before the value (RFC 2868, section 3).
fn is_tagged(code: u32) -> bool
    ensures { result ≡ named.is_tagged code }
{
    matches!(code, 64..=67 | 81..=83 | 90 | 91)
}

/// Appends the line of an attribute whose value may have a tag.
fn push_tagged(
    alloc: Global,
    text: &mut Vec<u8>,
    name: &str,
    code: u32,
    kind: Kind,
    value: &[u8],
) -> Result<(), NoMemory>
    ensures { OnOk result
        (text.new.items ≡ text.old.items ++ named.tagged_line code name.now kind value.now) }
{
    match (kind, value) {
        (Kind::Number, [tag, a, b, c]) => {
            let name = format!(in alloc; "{name}:{tag}")?;
            push_line(alloc, text, INDENT, &name, code, kind, &[0, *a, *b, *c])
        }
        (Kind::Text, [tag, value @ ..]) if *tag <= LAST_TAG => {
            let name = format!(in alloc; "{name}:{tag}")?;
            push_line(alloc, text, INDENT, &name, code, kind, value)
        }
        _ => push_line(alloc, text, INDENT, name, code, kind, value),
    }
}

/// Appends the line of an attribute of this type.
fn push_plain(alloc: Global, text: &mut Vec<u8>, code: u32, value: &[u8]) -> Result<(), NoMemory>
    ensures { OnOk result
        (text.new.items ≡ text.old.items ++ named.attribute_line code value.now (avp_named code)) }
{
    match find_avp(code) {
        Some((name, kind)) => {
            if is_tagged(code) {
                push_tagged(alloc, text, name, code, kind, value)
            } else {
                push_line(alloc, text, INDENT, name, code, kind, value)
            }
        }
        None => {
            let name = format!(in alloc; "Attr-{code}")?;
            push_hex_line(text, INDENT, &name, value)
        }
    }
}

/// Appends the lines of an attribute.
fn push_attribute(
    alloc: Global,
    text: &mut Vec<u8>,
    attribute: &Attribute<'_>,
) -> Result<(), NoMemory>
    ensures { OnOk result
        (text.new.items ≡ text.old.items ++ named.attribute_lines (attribute_view attribute.now)) }
{
    if attribute.code == VENDOR_SPECIFIC {
        push_vendor(alloc, text, attribute.value)
    } else {
        push_plain(alloc, text, u32::from(attribute.code), attribute.value)
    }
}

/// Appends a line for each attribute of the packet, and one for each part of a Vendor-Specific attribute.
pub fn push_attributes(
    alloc: Global,
    text: &mut Vec<u8>,
    packet: &Packet<'_>,
) -> Result<(), NoMemory>
    ensures { OnOk result
        (text.new.items ≡ text.old.items ++ flat_map named.attribute_lines packet.now.attributes) }
{
    for attribute in packet.attributes() {
        push_attribute(alloc, text, &attribute)?;
    }
    Ok(())
}
