//! The values of a packet's attributes.

ghost use Rattle.std.specs.Prelude.{◌≡◌, is_none};
ghost use Rattle.radius_packet.specs.Views.{attribute_view};
ghost use Rattle.attribute_table.specs.Rows.{row_of};
ghost use Rattle.translation.specs.Values as specs;

use crate::codes::{
    ACCT_INPUT_GIGAWORDS, ACCT_INPUT_OCTETS, ACCT_INPUT_PACKETS, ACCT_OUTPUT_GIGAWORDS,
    ACCT_OUTPUT_OCTETS, ACCT_OUTPUT_PACKETS, ACCT_TERMINATE_CAUSE,
};
use crate::direction::{Direction, goes};
use attribute_table::{forward, row_of_type};
use radius_packet::{Attribute, Packet};

/// Whether this is the type of a number that no row copies.
fn is_count(direction: Direction, code: u8) -> bool
    ensures { result ≡ specs.is_count direction code }
{
    match direction {
        Direction::Access => false,
        Direction::Accounting => matches!(
            code,
            ACCT_INPUT_OCTETS
                | ACCT_OUTPUT_OCTETS
                | ACCT_INPUT_PACKETS
                | ACCT_OUTPUT_PACKETS
                | ACCT_TERMINATE_CAUSE
                | ACCT_INPUT_GIGAWORDS
                | ACCT_OUTPUT_GIGAWORDS
        ),
    }
}

/// Whether the value has the size and the text of its row, where the row is copied.
fn fits_row(direction: Direction, attribute: &Attribute<'_>) -> bool
    ensures { let a = attribute_view attribute.now in result
        ≡ specs.fits_row direction (row_of a.code) a.value }
{
    match row_of_type(attribute.code) {
        Some(row) => !goes(direction, &row) || forward(&row, attribute.value).is_ok(),
        None => true,
    }
}

/// Whether the value has the size and the text that it must have.
pub(crate) fn is_good(direction: Direction, attribute: &Attribute<'_>) -> bool
    ensures { result ≡ specs.is_good direction (attribute_view attribute.now) }
{
    fits_row(direction, attribute)
        && (!is_count(direction, attribute.code) || attribute.value.len() == 4)
}

/// Whether each value of the packet has the size and the text that it must have, as `request` of a map asks.
pub fn are_good(direction: Direction, packet: &Packet<'_>) -> bool
    ensures { result ≡ is_none (specs.first_bad direction packet.now.attributes) }
{
    for attribute in packet.attributes() {
        if !is_good(direction, &attribute) {
            return false;
        }
    }
    true
}
