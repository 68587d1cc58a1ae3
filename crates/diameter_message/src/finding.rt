//! Looking for AVPs by their code, with V clear.

ghost use Rattle.std.specs.Prelude.{◌≡◌, ◌≤◌, length, find, option_copied, option_map, IfSome, IsTrue};
ghost use Rattle.diameter_avp.specs.Avps.{readable_avps, read_avps};
ghost use Rattle.diameter_avp.specs.View.{avp_view};
ghost use Rattle.diameter_message.specs.Finding as specs;

use diameter_avp::{Avp, avps};
use wire_core::get_u32;

/// Whether this is an AVP of this code, with V clear.
pub fn has_code(avp: &Avp<'_>, code: u32) -> bool
    ensures { result ≡ specs.has_code code (avp_view avp.now) }
{
    avp.vendor.is_none() && avp.code == code
}

fn has_size(avp: &Avp<'_>, code: u32, least: usize, most: usize) -> bool
    ensures test { result ≡ specs.has_size code least most (avp_view avp.now) }
    ensures fits { IsTrue result
        → (least ≤ length avp.now.body.now) × (length avp.now.body.now ≤ most) }
{
    has_code(avp, code) && least <= avp.body.len() && avp.body.len() <= most
}

/// The number in this AVP, if it has this code, V clear and a body of four octets.
pub fn number_of(avp: &Avp<'_>, code: u32) -> Option<u32>
    ensures { result ≡ specs.number_of code (avp_view avp.now) }
{
    if has_size(avp, code, 4, 4) {
        Some(get_u32(avp.body, 0))
    } else {
        None
    }
}

/// The first AVP of this code with V clear and a body of `least` to `most` octets, of those that stand before the first
/// fault.
pub fn find_avp(octets: &[u8], code: u32, least: usize, most: usize) -> Option<Avp<'_>>
    ensures found { option_map avp_view result
        ≡ find (specs.has_size code least most) (readable_avps octets.now) }
    ensures fits { IfSome result (λ a. (least ≤ length a.body.now) × (length a.body.now ≤ most)) }
{
    for item in avps(octets) {
        let Ok(avp) = item else {
            return None;
        };
        if has_size(&avp, code, least, most) {
            return Some(avp);
        }
    }
    None
}

/// The number in the first AVP of this code with V clear and a body of four octets, of those that stand before the
/// first fault.
pub fn find_number(octets: &[u8], code: u32) -> Option<u32>
    ensures { result ≡ specs.first_number code (readable_avps octets.now) }
{
    match find_avp(octets, code, 4, 4) {
        Some(avp) => Some(get_u32(avp.body, 0)),
        None => None,
    }
}

/// The body of the only AVP of this code with V clear. None where there isn't exactly one, or where the AVPs can't all be
/// read.
#[tactic(auto, using(crate::proofs::OnlyLemmas::only_after_whole))]
pub fn find_only(octets: &[u8], code: u32) -> Option<&[u8]>
    ensures { option_copied result ≡ specs.only_in code (read_avps octets.now) }
{
    let mut found = None;
    for item in avps(octets) {
        let Ok(avp) = item else {
            return None;
        };
        if has_code(&avp, code) {
            if found.is_some() {
                return None;
            }
            found = Some(avp.body);
        }
    }
    found
}
