//! The attributes of AVPs that have a row in the table.

ghost use Rattle.std.specs.Prelude.{◌≡◌, ◌≤◌, not, is_ok};
ghost use Rattle.radius_packet.specs.Seals.{reply_length};
ghost use Rattle.diameter_avp.specs.View.{avp_view};
ghost use Rattle.attribute_table.specs.Rows as rows;
ghost use Rattle.translation.specs.Pushing.{Pushes};
ghost use Rattle.reverse_map.specs.Requests as specs;

use attribute_table::row_of_avp;
use diameter_avp::Avp;
use radius_packet::Reply;
use translation::{Direction, Unfit, goes, push_value};

/// Pushes the attribute of an AVP that has a row of this packet. A value at fault is refused where flag M is set.
pub(crate) fn push_row(
    request: &mut Reply,
    direction: Direction,
    avp: &Avp<'_>,
) -> Result<(), Unfit>
    requires short { reply_length request.old ≤ 4096 }
    ensures { let a = avp_view avp.now in
        Pushes request.old request.new (is_ok result) (not (specs.is_bad_row direction a))
        (specs.row_attributes direction (rows.row_of_avp a.code) a.body) }
{
    match row_of_avp(avp.code) {
        Some(row) if goes(direction, &row) => push_value(request, &row, avp.body, avp.mandatory),
        _ => Ok(()),
    }
}
