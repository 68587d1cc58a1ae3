//! The Disconnect-Request (RFC 5176, sections 2.1, 2.3 and 3).

ghost use Rattle.std.specs.Prelude.{◌≡◌, ◌+◌, ◌≤◌, List, ℕ, [], ◌∷◌, ◌++◌, length, IfOk, IfSome};
ghost use Rattle.std.specs.Option.{option_copied};
ghost use Rattle.radius_packet.specs.Packet.{IsPacket};
ghost use Rattle.radius_packet.specs.Seals.{reply_length};
ghost use Rattle.radius_packet.specs.Checks.{IsAccountingRight};
ghost use Rattle.disconnect_map.specs.Disconnects.{attribute, user_attributes, disconnect_parts, disconnect_text};

use agent_settings::Client;
use radius_packet::Reply;
use std::alloc::Global;
use wire_core::{NoMemory, Octets};

/// RFC 5176, section 2.3.
const DISCONNECT_REQUEST: u8 = 40;

/// RFC 2865, section 5.
const USER_NAME: u8 = 1;

const NAS_IP_ADDRESS: u8 = 4;

/// RFC 2866, section 5.
const ACCT_SESSION_ID: u8 = 44;

/// Puts an attribute, for which there is room.
fn put(request: &mut Reply, code: u8, value: &[u8])
    requires short { length value.now ≤ 253 }
    requires room { reply_length request.old + 2 + length value.now ≤ 4096 }
    ensures { request.new ≡ record request.old
        { attributes = request.old.attributes ++ attribute code value.now ∷ [] } }
{
    request.push(code, value).unwrap();
}

/// Puts the User-Name, where there is one.
fn put_user(request: &mut Reply, user: Option<&[u8]>)
    requires short { IfSome (option_copied user) (λ user. length user ≤ 253) }
    requires room { reply_length request.old + 255 ≤ 4096 }
    ensures { request.new ≡ record request.old
        { attributes = request.old.attributes ++ user_attributes (option_copied user.entry) } }
{
    if let Some(user) = user {
        put(request, USER_NAME, user);
    }
}

/// The Disconnect-Request for the session that the client told of with this Acct-Session-Id, and with this User-Name where
/// it gave one. It takes the memory of the longest packet; a copy has its own size.
pub fn disconnect(
    alloc: Global,
    client: &Client,
    id: u8,
    user: Option<&[u8]>,
    acct: &[u8],
) -> Result<Octets, NoMemory>
    requires user { IfSome (option_copied user) (λ user. length user ≤ 253) }
    requires acct { length acct.now ≤ 253 }
    ensures exact { IfOk result
        (λ o. o ≡ disconnect_text client.now id (option_copied user.entry) acct.now) }
    // It is a packet of these parts, and its authenticator is that of an Accounting-Request.
    ensures packet { IfOk result (λ o. (a : List ℕ)
        × IsPacket o (disconnect_parts client.now id (option_copied user.entry) acct.now a)) }
    ensures authentic { IfOk result (λ o. IsAccountingRight client.now.secret o) }
{
    // A Request Authenticator is made as the Response Authenticator to sixteen zeros.
    let mut request = Reply::new(alloc, DISCONNECT_REQUEST, id, [0; 16], false)?;
    put_user(&mut request, user);
    put(&mut request, NAS_IP_ADDRESS, &client.address.to_be_bytes());
    put(&mut request, ACCT_SESSION_ID, acct);
    Ok(request.finish(client.secret.as_slice()))
}
