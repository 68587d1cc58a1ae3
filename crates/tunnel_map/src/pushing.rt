//! The attributes of a group.

ghost use Rattle.std.specs.Prelude.{◌≡◌, None, is_ok, OnOk, OnErr};
ghost use Rattle.diameter_avp.specs.View.{avp_view};
ghost use Rattle.tunnel_map.specs.Groups.{PushedInPart, attribute_of, group_attributes, group_fault, has_room_for, with_attributes};
ghost use Rattle.tunnel_map.specs.Pushing.{has_room_for_own, with_own};

use crate::member::attribute_body;
use diameter_avp::{Avp, avps};
use radius_packet::{Full, Reply};

/// The most octets that the value of an attribute has.
const MOST_VALUE: usize = 253;

/// Puts the attribute of a member at the end, where it has one.
fn push_member(reply: &mut Reply, member: &Avp<'_>, tag: u8) -> Result<(), Full>
    ensures room { is_ok result
        ≡ has_room_for_own reply.old (attribute_of tag (avp_view member.now)) }
    ensures ok { OnOk result
        (reply.new ≡ with_own reply.old (attribute_of tag (avp_view member.now))) }
    ensures err { OnErr result (reply.new ≡ reply.old) }
{
    let Some(body) = attribute_body(member) else {
        return Ok(());
    };
    let mut value = [0; MOST_VALUE];
    value[0] = tag;
    value[1..=body.len()].copy_from_slice(body);
    reply.push(member.code as u8, &value[..=body.len()])
}

/// Puts the attributes of a group at the end, each with this tag, in the order of the group's members. Tunnel-Passwords
/// give none, nor do members with M clear that are unknown or of a bad size. `Full` comes where the packet would pass
/// 4096 octets; the attributes before the first that doesn't fit then stay.
pub fn push_group(reply: &mut Reply, body: &[u8], tag: u8) -> Result<(), Full>
    requires { group_fault tag body.now ≡ None }
    ensures room { is_ok result ≡ has_room_for reply.old (group_attributes tag body.now) }
    ensures ok { OnOk result
        (reply.new ≡ with_attributes reply.old (group_attributes tag body.now)) }
    ensures err { OnErr result (PushedInPart reply.old reply.new (group_attributes tag body.now)) }
{
    for item in avps(body) {
        push_member(reply, &item.unwrap(), tag)?;
    }
    Ok(())
}
