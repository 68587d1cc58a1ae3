//! What a tagged attribute says.

ghost use Rattle.std.specs.Prelude.{◌≡◌, ℕ, option_map};
ghost use Rattle.tunnel_map.specs.Tagged as specs;
ghost use Rattle.tunnel_map.specs.Views.{tagged_view};

use crate::kind::{Kind, kind_of};

/// The greatest tag (RFC 2868, section 3.1).
pub(crate) const MOST_TAG: u8 = 31;

/// A tagged attribute.
#[derive(Clone, Copy, PartialEq, Eq)]
pub struct Tagged<'a> {
    /// The tag, 0 to 31. A text that has none counts as tagged with 0.
    pub tag: u8,
    /// Whether the value is a number.
    pub number: bool,
    /// The value behind the tag: the three octets of a number, or a text.
    pub body: &'a [u8],
}

/// A number, where the value is a tag and three octets.
fn number_in(value: &[u8]) -> Option<Tagged<'_>>
    ensures for_code { (code : ℕ)
        → option_map (tagged_view code) result ≡ specs.number_in code value.now }
{
    match value {
        [tag, body @ ..] if *tag <= MOST_TAG && body.len() == 3 => Some(Tagged {
            tag: *tag,
            number: true,
            body,
        }),
        _ => None,
    }
}

/// A text.
fn text_in(value: &[u8]) -> Tagged<'_>
    ensures for_code { (code : ℕ) → tagged_view code result ≡ specs.text_in code value.now }
{
    match value {
        [tag, body @ ..] if *tag <= MOST_TAG => Tagged {
            tag: *tag,
            number: false,
            body,
        },
        _ => Tagged {
            tag: 0,
            number: false,
            body: value,
        },
    }
}

/// The tag and the value of an attribute of this type. None where the type isn't one of the tagged ones, and where a
/// number isn't a tag and three octets (RFC 2868, section 3).
pub fn tag_of(code: u8, value: &[u8]) -> Option<Tagged<'_>>
    ensures { option_map (tagged_view code) result ≡ specs.reading code value.now }
{
    match kind_of(code.into())? {
        Kind::Number => number_in(value),
        Kind::Text => Some(text_in(value)),
    }
}
