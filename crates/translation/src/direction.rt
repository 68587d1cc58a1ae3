//! The requests into which attributes are copied.

ghost use Rattle.std.specs.Prelude.{◌≡◌};
ghost use Rattle.translation.specs.Direction as specs;

use attribute_table::Row;

/// The packet of RADIUS that a request is made of.
#[derive(Clone, Copy, PartialEq, Eq)]
pub enum Direction {
    /// An Access-Request.
    Access,
    /// An Accounting-Request.
    Accounting,
}

/// Whether the attributes of a row are copied from this packet.
pub fn goes(direction: Direction, row: &Row) -> bool
    ensures { result ≡ specs.goes direction row.now }
{
    match direction {
        Direction::Access => row.access,
        Direction::Accounting => row.accounting,
    }
}
