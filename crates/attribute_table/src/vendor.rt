//! Reading Vendor-Specific attributes.

ghost use Rattle.std.specs.Prelude.{◌≡◌, List, IfSome};
ghost use Rattle.attribute_table.specs.Vendors as vendors;
ghost use Rattle.attribute_table.specs.Vendors.{VendorPart, IsVendors};

use crate::parts::{Vsa, part_size};
use wire_core::get_u32;

/// Whether these octets are parts, one after the other.
fn are_parts(octets: &[u8]) -> bool
    ensures { result ≡ vendors.are_parts 0 octets.now }
{
    let mut rest = octets;
    while !rest.is_empty() {
        match part_size(rest) {
            Some(size) => rest = &rest[size..],
            None => return false,
        }
    }
    true
}

/// The parts of attribute 26: four octets of vendor, then one or more of a type, a length that counts
/// these two octets, and a value. None where the value isn't of this form throughout.
pub fn vsa(value: &[u8]) -> Option<Vsa<'_>>
    ensures exact { result ≡ vendors.vendor_parts value.now }
    ensures found { IfSome result (λ parts. IsVendors value.now parts) }
    ensures only { (parts : List VendorPart) → IsVendors value.now parts → result ≡ Some parts }
{
    let (vendor, rest) = value.split_at_checked(4)?;
    if rest.is_empty() || !are_parts(rest) {
        return None;
    }
    Some(Vsa {
        vendor: get_u32(vendor, 0),
        rest,
    })
}
