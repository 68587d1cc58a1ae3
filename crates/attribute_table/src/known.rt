//! The AVPs that are known, and those that carry keys.

ghost use Rattle.std.specs.Prelude.{◌≡◌};
ghost use Rattle.attribute_table.specs.Known as known;

use crate::row::row_of_avp;

/// Microsoft's vendor number (RFC 2548).
const MICROSOFT: u32 = 311;

/// The AVPs that are known and that no row copies, in the order of the definition, which names them.
const KNOWN: [u32; 33] = [
    24, 29, 33, 258, 259, 260, 263, 264, 268, 270, 271, 272, 274, 276, 277, 278, 279, 281, 282,
    284, 285, 287, 291, 294, 296, 297, 401, 408, 462, 465, 480, 483, 485,
];

/// Whether an AVP with this code and the V flag clear is known, with a row or without.
#[tactic(auto, unfolding(crate::specs::Known::is_known, crate::specs::Known::known_codes))]
pub fn is_known(code: u32) -> bool
    ensures { result ≡ known.is_known code }
{
    row_of_avp(code).is_some() || KNOWN.contains(&code)
}

/// Whether an AVP, or a part of a Vendor-Specific attribute, carries a key.
pub fn is_key(code: u32, vendor: Option<u32>) -> bool
    ensures { result ≡ known.is_key code vendor }
{
    match vendor {
        // Tunnel-Password, EAP-Key-Name, EAP-Master-Session-Key
        None => matches!(code, 69 | 102 | 464),
        // MS-CHAP-MPPE-Keys, MS-MPPE-Send-Key, MS-MPPE-Recv-Key
        Some(vendor) => vendor == MICROSOFT && matches!(code, 12 | 16 | 17),
    }
}
