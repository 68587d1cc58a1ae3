//! What a value of RADIUS becomes in Diameter, and the other way.

ghost use Rattle.std.specs.Prelude.{◌≡◌, length, IsTrue, is_ok, Ok};
ghost use Rattle.std.specs.Str.{is_utf8};
ghost use Rattle.attribute_table.specs.Images as images;

use crate::row::{Kind, Row};
use std::marker::Model;
use thiserror::Error;
use wire_core::{get_u32, put_u32};

/// From 1900, where Diameter counts from, to 1970, in seconds (RFC 6733, section 4.3.1).
const SECONDS_TO_1970: u32 = 2_208_988_800;

/// How many octets the value of a RADIUS attribute has at most (RFC 2865, section 5).
const LONGEST_VALUE: usize = 253;

/// Why a value isn't translated.
#[derive(Clone, Copy, Debug, PartialEq, Eq, Error)]
pub enum RowFault {
    #[error("the value has a wrong size")]
    BadSize,
    #[error("the text isn't UTF-8")]
    BadText,
    #[error("the value has more than 253 octets")]
    TooLong,
}

#[derive(Clone, Copy)]
enum Held<'a> {
    Borrowed(&'a [u8]),
    Made([u8; 4]),
}

/// A translated value. Contracts see it as its octets.
#[derive(Drop)]
pub struct Image<'a> {
    held: Held<'a>,
}

impl<'a> Model for Image<'a> {
    ghost use Rattle.std.specs.Prelude.{List, ℕ};
    ghost use Rattle.attribute_table.specs.Held.{held_octets};

    ghost Value = { List ℕ };

    ghost view = { λ i. held_octets i.held };
}

impl<'a> Image<'a> {
    /// The octets.
    pub fn octets(&self) -> &[u8]
        ensures { result.now ≡ self.now }
    {
        match &self.held {
            Held::Borrowed(octets) => octets,
            Held::Made(octets) => octets,
        }
    }
}

/// Whether these octets are UTF-8.
fn is_text(value: &[u8]) -> bool
    ensures { result ≡ is_utf8 value.now }
{
    std::str::from_utf8(value).is_ok()
}

/// Whether these octets are a value of this kind.
fn is_of_kind(kind: Kind, value: &[u8]) -> bool
    ensures { result ≡ images.is_of_kind kind value.now }
{
    match kind {
        Kind::Text => is_text(value),
        Kind::Plain => true,
        Kind::Four | Kind::Time => value.len() == 4,
        Kind::Eight => value.len() == 8,
        Kind::Sixteen => value.len() == 16,
        Kind::Prefix => (2..=18).contains(&value.len()),
    }
}

/// What is wrong with a value that isn't of this kind.
fn kind_fault(kind: Kind) -> RowFault
    ensures { result ≡ images.kind_fault kind }
{
    match kind {
        Kind::Text => RowFault::BadText,
        _ => RowFault::BadSize,
    }
}

/// Seconds from 1970 as seconds from 1900.
fn later(value: &[u8]) -> [u8; 4]
    requires { length value.now ≡ 4 }
    ensures { result ≡ images.diameter_value Kind.Time value.now }
{
    let mut octets = [0; 4];
    put_u32(
        &mut octets,
        0,
        get_u32(value, 0).wrapping_add(SECONDS_TO_1970),
    );
    octets
}

/// Seconds from 1900 as seconds from 1970.
fn earlier(body: &[u8]) -> [u8; 4]
    requires { length body.now ≡ 4 }
    ensures { result ≡ images.radius_value Kind.Time body.now }
{
    let mut octets = [0; 4];
    put_u32(
        &mut octets,
        0,
        get_u32(body, 0).wrapping_sub(SECONDS_TO_1970),
    );
    octets
}

/// The data of the AVP that an attribute with this value becomes.
#[tactic(auto, unfolding(crate::specs::Images::forward_image))]
pub fn forward<'a>(row: &Row, value: &'a [u8]) -> Result<Image<'a>, RowFault>
    ensures { result ≡ images.forward_image row.now value.now }
{
    if !is_of_kind(row.kind, value) {
        return Err(kind_fault(row.kind));
    }
    Ok(forward_checked(row, value))
}

/// The data of the AVP that an attribute with this value becomes, where the value is known to be of the row's kind. It
/// isn't looked at again.
#[tactic(auto, unfolding(crate::specs::Images::forward_image))]
pub fn forward_checked<'a>(row: &Row, value: &'a [u8]) -> Image<'a>
    requires { IsTrue (is_ok (images.forward_image row.now value.now)) }
    ensures { Ok result ≡ images.forward_image row.now value.now }
{
    let held = match row.kind {
        Kind::Time => Held::Made(later(value)),
        _ => Held::Borrowed(value),
    };
    Image { held }
}

/// The value of the attribute that an AVP with this data becomes.
#[tactic(auto, unfolding(crate::specs::Images::backward_image))]
pub fn backward<'a>(row: &Row, body: &'a [u8]) -> Result<Image<'a>, RowFault>
    ensures { result ≡ images.backward_image row.now body.now }
{
    if body.len() > LONGEST_VALUE {
        return Err(RowFault::TooLong);
    }
    if !is_of_kind(row.kind, body) {
        return Err(kind_fault(row.kind));
    }
    let held = match row.kind {
        Kind::Time => Held::Made(earlier(body)),
        _ => Held::Borrowed(body),
    };
    Ok(Image { held })
}
