//! Reading AVPs.

ghost use Rattle.std.specs.Prelude.{◌≡◌, ◌+◌, ◌<◌, ◌^◌, List, OnOk};
ghost use Rattle.diameter_avp.specs.Avps.{AvpParts, IsAvps, avp_items, avps_fault, padding, unless_fault};
ghost use Rattle.diameter_avp.specs.Reading.{Gives};

use crate::avp::{Avp, MANDATORY, VENDOR};
use crate::fault::AvpFault;
use crate::items::Avps;
use wire_core::{get_u24, get_u32};

/// The AVPs of these octets in order.
pub fn avps(octets: &[u8]) -> Avps<'_>
    ensures { result ≡ avp_items octets.now }
{
    Avps::new(octets)
}

/// Whether these octets are AVPs, one after the other, and else the first fault by place.
pub fn check_avps(octets: &[u8]) -> Result<(), AvpFault>
    ensures exact { result ≡ unless_fault (avps_fault octets.now) tt }
    ensures found { OnOk result ((avps : List AvpParts) × IsAvps octets.now avps) }
    ensures only { (avps : List AvpParts) → IsAvps octets.now avps → result ≡ Ok tt }
{
    for item in avps(octets) {
        item?;
    }
    Ok(())
}

/// The least multiple of four that holds so many octets.
pub(crate) fn padded(length: usize) -> usize
    requires { length + 3 < 2 ^ 64 }
    ensures { result ≡ length + padding length }
{
    length.next_multiple_of(4)
}

/// The AVP that these octets begin with, and how many octets it takes with its padding. The octets
/// stand at this place of a list.
#[tactic(auto, unfolding(crate::specs::Avps::read_avp))]
pub(crate) fn read_avp(octets: &[u8], place: usize) -> Result<(Avp<'_>, usize), AvpFault>
    ensures { Gives place octets.now result }
{
    if octets.len() < 8 {
        return Err(AvpFault::Short { place });
    }
    let flags = octets[4];
    let has_vendor = flags & VENDOR != 0;
    let header = if has_vendor { 12 } else { 8 };
    let length = get_u24(octets, 5) as usize;
    let span = padded(length);
    if length < header || octets.len() < span {
        return Err(AvpFault::BadLength { place });
    }
    let avp = Avp {
        code: get_u32(octets, 0),
        vendor: if has_vendor {
            Some(get_u32(octets, 8))
        } else {
            None
        },
        mandatory: flags & MANDATORY != 0,
        flags,
        body: &octets[header..length],
    };
    Ok((avp, span))
}
