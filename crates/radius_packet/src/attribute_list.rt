//! The attributes of a packet, in order (RFC 2865, section 5).

ghost use Rattle.std.specs.Prelude.{◌≡◌};
ghost use Rattle.std.specs.Iterator.{YieldsFirstBy, item_count};
ghost use Rattle.radius_packet.specs.Packet.{attributes_text, attributes_in};
ghost use Rattle.radius_packet.specs.Views.{attribute_view};

use std::marker::Model;

/// An attribute: its type, and its value of up to 253 octets.
#[derive(Clone, Copy, PartialEq, Eq)]
pub struct Attribute<'a> {
    pub code: u8,
    pub value: &'a [u8],
}

/// The attributes that are left. Contracts see them as the list of their parts.
#[derive(Drop)]
pub struct Attributes<'a> {
    rest: &'a [u8],
}

impl<'a> Model for Attributes<'a> {
    ghost use Rattle.std.specs.Prelude.{◌≡◌, List};
    ghost use Rattle.radius_packet.specs.Packet.{AttributeParts, attributes_text, attributes_in};

    ghost Value = { List AttributeParts };

    ghost view = { λ a. attributes_in a.rest.now };

    ghost invariant = { λ a. a.rest.now ≡ attributes_text (attributes_in a.rest.now) };
}

impl<'a> Attributes<'a> {
    /// The attributes in these octets, which are whole.
    pub(crate) fn new(octets: &'a [u8]) -> Attributes<'a>
        requires { octets.now ≡ attributes_text (attributes_in octets.now) }
        ensures { result ≡ attributes_in octets.now }
    {
        Attributes { rest: octets }
    }
}

impl<'a> Iterator for Attributes<'a> {
    type Item = Attribute<'a>;

    ghost next_gives = { YieldsFirstBy attribute_view (λ rest. rest) };

    ghost remaining = { item_count (λ rest. rest) };

    fn next(&mut self) -> Option<Attribute<'a>> {
        match self.rest {
            [code, size, rest @ ..] => {
                let (value, rest) = rest.split_at(*size as usize - 2);
                self.rest = rest;
                Some(Attribute { code: *code, value })
            }
            _ => None,
        }
    }
}
