//! The AVPs of a message.

ghost use Rattle.std.specs.Prelude.{◌≡◌, ◌++◌, ◌+◌, ◌*◌, ◌<◌, ◌^◌, replicate, option_map, IfOk, OnOk};
ghost use Rattle.std.specs.String.{string_bytes};
ghost use Rattle.diameter_avp.specs.View.{item_view};
ghost use Rattle.printed_lines.specs.Show.{avp_fault_line as fault_text};
ghost use Rattle.names.specs.Names.{avp_named};
ghost use Rattle.named_lines.specs.NamedText as named;

use crate::lines::{push_hex_line, push_indent, push_line, push_vendor_line};
use diameter_avp::{Avp, AvpFault, avps};
use names::{Kind, find_avp};
use printed_lines::avp_fault_line;
use std::alloc::Global;
use wire_core::NoMemory;

/// How much deeper the AVPs of a group stand.
const STEP: usize = 4;

/// Appends the line of what isn't an AVP.
fn push_fault(
    alloc: Global,
    text: &mut Vec<u8>,
    indent: usize,
    fault: AvpFault,
) -> Result<(), NoMemory>
    ensures { OnOk result
        (text.new.items ≡ text.old.items ++ (replicate indent 32 ++ fault_text fault)) }
{
    push_indent(text, indent)?;
    let line = avp_fault_line(alloc, fault)?;
    text.extend_from_slice(line.as_slice())?;
    Ok(())
}

/// Appends the line of an AVP without a vendor, whose group isn't looked into.
fn push_plain(
    alloc: Global,
    text: &mut Vec<u8>,
    indent: usize,
    code: u32,
    body: &[u8],
) -> Result<(), NoMemory>
    ensures { OnOk result (text.new.items
        ≡ text.old.items ++ named.named_line indent code body.now (avp_named code)) }
{
    match find_avp(code) {
        Some((name, kind)) => push_line(alloc, text, indent, name, code, kind, body),
        None => {
            let name = format!(in alloc; "AVP-{code}")?;
            push_hex_line(text, indent, &name, body)
        }
    }
}

/// The name of an AVP of a vendor.
#[tactic(auto, unfolding(crate::specs::NamedText::vendor_name))]
pub fn vendor_name(alloc: Global, vendor: u32, code: u32) -> Result<String, NoMemory>
    ensures { IfOk result (λ name. string_bytes name ≡ named.vendor_name vendor code) }
{
    Ok(format!(in alloc; "Vendor-{vendor}-AVP-{code}")?)
}

/// Appends the line of an item of a list of AVPs, whose group isn't looked into.
fn push_item(
    alloc: Global,
    text: &mut Vec<u8>,
    indent: usize,
    item: Result<Avp<'_>, AvpFault>,
) -> Result<(), NoMemory>
    ensures { OnOk result
        (text.new.items ≡ text.old.items ++ named.item_line indent (item_view item.entry)) }
{
    match item {
        Ok(
            Avp {
                code,
                vendor: None,
                body,
                ..
            },
        ) => push_plain(alloc, text, indent, code, body),
        Ok(
            Avp {
                code,
                vendor: Some(vendor),
                body,
                ..
            },
        ) => {
            let name = vendor_name(alloc, vendor, code)?;
            push_vendor_line(text, indent, &name, vendor, code, body)
        }
        Err(fault) => push_fault(alloc, text, indent, fault),
    }
}

/// The name and the AVPs of a group.
fn group<'a>(item: &Result<Avp<'a>, AvpFault>) -> Option<(&'static str, &'a [u8])>
    ensures { option_map (λ g. (g.0.now, g.1.now)) result ≡ named.group (item_view item.now) }
{
    match item {
        Ok(
            Avp {
                code,
                vendor: None,
                body,
                ..
            },
        ) => match find_avp(*code) {
            Some((name, Kind::Group)) => Some((name, body)),
            _ => None,
        },
        _ => None,
    }
}

/// Appends the line that stands before the AVPs of a group.
fn push_heading(text: &mut Vec<u8>, indent: usize, name: &str) -> Result<(), NoMemory>
    ensures { OnOk result (text.new.items ≡ text.old.items ++ named.heading indent name.now) }
{
    push_indent(text, indent)?;
    text.extend_from_slice(name.as_bytes())?;
    text.extend_from_slice(b" =\n")?;
    Ok(())
}

/// Appends the lines of an item of a list of AVPs.
#[cycle(opened)]
fn push_opened(
    alloc: Global,
    text: &mut Vec<u8>,
    depth: u32,
    indent: usize,
    item: Result<Avp<'_>, AvpFault>,
) -> Result<(), NoMemory>
    requires { indent + 4 * depth < 2 ^ 32 }
    ensures { OnOk result
        (text.new.items ≡ text.old.items ++ named.lines_at depth indent (item_view item.entry)) }
{
    let Some(deeper) = depth.checked_sub(1) else {
        return push_item(alloc, text, indent, item);
    };
    match group(&item) {
        Some((name, body)) => {
            push_heading(text, indent, name)?;
            push_avps(alloc, text, deeper, indent + STEP, body)
        }
        None => push_item(alloc, text, indent, item),
    }
}

/// Appends a line for each AVP of a list up to the first fault, and for that fault, behind so many spaces. Groups are looked
/// into so many deep.
#[cycle(opened)]
pub fn push_avps(
    alloc: Global,
    text: &mut Vec<u8>,
    depth: u32,
    indent: usize,
    octets: &[u8],
) -> Result<(), NoMemory>
    requires { indent + 4 * depth < 2 ^ 32 }
    ensures { OnOk result
        (text.new.items ≡ text.old.items ++ named.list_lines depth indent octets.now) }
{
    for item in avps(octets) {
        push_opened(alloc, text, depth, indent, item)?;
    }
    Ok(())
}
