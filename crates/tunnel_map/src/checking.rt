//! Whether a group can be attributes.

ghost use Rattle.std.specs.Prelude.{◌≡◌};
ghost use Rattle.std.specs.Result.{result_err};
ghost use Rattle.diameter_avp.specs.Avps.{read_avps};
ghost use Rattle.diameter_avp.specs.View.{avp_view};
ghost use Rattle.tunnel_map.specs.Checking.{own_code};
ghost use Rattle.tunnel_map.specs.Groups.{group_fault, list_fault};

use crate::fault::TunnelFault;
use crate::member::{has_bad_size, is_unknown};
use crate::tagged::MOST_TAG;
use diameter_avp::{Avp, avps};

/// The code of a member with M set of which this holds.
fn code_where(member: &Avp<'_>, holds: bool) -> Option<u32>
    ensures { result ≡ own_code holds (avp_view member.now) }
{
    if member.mandatory && holds {
        Some(member.code)
    } else {
        None
    }
}

/// Whether the members of a group are attributes of a tunnel, or may be passed over since M is clear.
fn check_members(body: &[u8]) -> Result<(), TunnelFault>
    ensures { result_err result ≡ list_fault (read_avps body.now) }
{
    let mut unknown = None;
    let mut bad_size = None;
    for item in avps(body) {
        let Ok(member) = item else {
            return Err(TunnelFault::Rotten);
        };
        unknown = unknown.or(code_where(&member, is_unknown(&member)));
        bad_size = bad_size.or(code_where(&member, has_bad_size(&member)));
    }
    match (unknown, bad_size) {
        (Some(code), _) => Err(TunnelFault::Unknown { code }),
        (None, Some(code)) => Err(TunnelFault::BadSize { code }),
        (None, None) => Ok(()),
    }
}

/// Whether the group with this body can be attributes with this tag, and else the first fault: `TooMany`, `Rotten`,
/// and then `Unknown` before `BadSize`, each with the code of the first such member with M set (RFC 4005, section 7.1;
/// the order is this profile's). Members with M clear have no fault.
pub fn check_group(body: &[u8], tag: u8) -> Result<(), TunnelFault>
    ensures { result_err result ≡ group_fault tag body.now }
{
    if tag > MOST_TAG {
        return Err(TunnelFault::TooMany);
    }
    check_members(body)
}
