//! The parts of Vendor-Specific attributes, one after the other.

ghost use Rattle.std.specs.Prelude.{◌≡◌};
ghost use Rattle.std.specs.Iterator.{YieldsFirstBy, item_count};
ghost use Rattle.attribute_table.specs.Vendors as vendors;
ghost use Rattle.attribute_table.specs.VendorViews.{part_view};

use std::marker::Model;

/// One part of a Vendor-Specific attribute (RFC 2865, section 5.26).
#[derive(Clone, Copy)]
pub struct VsaPart<'a> {
    pub vendor: u32,
    /// The vendor's type.
    pub code: u8,
    pub body: &'a [u8],
}

/// The parts of a Vendor-Specific attribute in order. Contracts see it as the parts that are left.
#[derive(Drop)]
pub struct Vsa<'a> {
    pub(crate) vendor: u32,
    pub(crate) rest: &'a [u8],
}

impl<'a> Model for Vsa<'a> {
    ghost use Rattle.std.specs.Prelude.{List};
    ghost use Rattle.attribute_table.specs.Vendors.{VendorPart, parts_behind};

    ghost Value = { List VendorPart };

    ghost view = { λ v. parts_behind v.vendor 0 v.rest.now };
}

/// How many octets the part takes with which these begin, if it is whole.
pub(crate) fn part_size(octets: &[u8]) -> Option<usize>
    ensures { result ≡ vendors.part_size octets.now }
{
    if octets.len() < 2 {
        return None;
    }
    let size = usize::from(octets[1]);
    if 2 <= size && size <= octets.len() {
        Some(size)
    } else {
        None
    }
}

impl<'a> Iterator for Vsa<'a> {
    type Item = VsaPart<'a>;

    ghost next_gives = { YieldsFirstBy part_view (λ s. s) };

    ghost remaining = { item_count (λ s. s) };

    fn next(&mut self) -> Option<VsaPart<'a>> {
        let size = part_size(self.rest)?;
        let (part, rest) = self.rest.split_at(size);
        self.rest = rest;
        Some(VsaPart {
            vendor: self.vendor,
            code: part[0],
            body: &part[2..],
        })
    }
}
