//! The attributes of a request, pushed where nothing is at fault.

ghost use Rattle.std.specs.Prelude.{◌≡◌, ◌≤◌, ◌∷◌, not, is_ok};
ghost use Rattle.std.specs.List.{flat_map, list_any};
ghost use Rattle.wire_core.specs.Numbers.{u32 as text32};
ghost use Rattle.radius_packet.specs.Seals.{reply_length};
ghost use Rattle.diameter_avp.specs.View.{avp_view};
ghost use Rattle.translation.specs.AvpList.{list_view};
ghost use Rattle.translation.specs.Pushing.{Pushes};
ghost use Rattle.translation.specs.Replies.{attribute};
ghost use Rattle.translation.specs.declared.direction.Direction.TheVariants.{Accounting};
ghost use Rattle.reverse_map.specs.Requests as specs;

use crate::access::push_access;
use crate::accounting::{push_accounting, push_number};
use crate::codes::ACCT_STATUS_TYPE;
use diameter_avp::Avp;
use radius_packet::Reply;
use translation::{Direction, Unfit, fits_vendor, pass_over, push_fitting};

/// The most octets of a vendor's value (RFC 2865, section 5.26).
const MOST_VENDOR_VALUE: usize = 247;

/// Whether an AVP of a vendor refuses the packet.
fn is_bad_vendor(avp: &Avp<'_>) -> bool
    ensures { result ≡ specs.is_bad_vendor (avp_view avp.now) }
{
    avp.mandatory && avp.body.len() > MOST_VENDOR_VALUE
}

/// Pushes the AVP of a vendor as a Vendor-Specific attribute. One that doesn't fit is refused where flag M is set.
fn push_vendor(request: &mut Reply, vendor: u32, avp: &Avp<'_>) -> Result<(), Unfit>
    requires short { reply_length request.old ≤ 4096 }
    ensures { let a = avp_view avp.now in
        Pushes request.old request.new (is_ok result) (not (specs.is_bad_vendor a))
        (specs.vendor_attributes vendor a) }
{
    if fits_vendor(avp) {
        push_fitting(request, vendor, avp)
    } else {
        pass_over(is_bad_vendor(avp))
    }
}

/// Pushes what an AVP without a vendor gives.
fn push_plain(
    request: &mut Reply,
    direction: Direction,
    random: &[u8; 16],
    secret: &[u8],
    avp: &Avp<'_>,
) -> Result<(), Unfit>
    requires short { reply_length request.old ≤ 4096 }
    ensures { let a = avp_view avp.now in
        Pushes request.old request.new (is_ok result) (not (specs.is_bad_plain direction a))
        (specs.plain_attributes direction random.now secret.now a) }
{
    match direction {
        Direction::Access => push_access(request, random, secret, avp),
        Direction::Accounting => push_accounting(request, avp),
    }
}

/// Pushes what an AVP gives.
fn push_image(
    request: &mut Reply,
    direction: Direction,
    random: &[u8; 16],
    secret: &[u8],
    avp: &Avp<'_>,
) -> Result<(), Unfit>
    requires short { reply_length request.old ≤ 4096 }
    ensures { let a = avp_view avp.now in
        Pushes request.old request.new (is_ok result) (not (specs.is_bad direction a))
        (specs.image direction random.now secret.now a) }
{
    match avp.vendor {
        Some(vendor) => push_vendor(request, vendor, avp),
        None => push_plain(request, direction, random, secret, avp),
    }
}

/// Pushes what the AVPs give, in order. One that is at fault refuses the packet.
pub(crate) fn push_images(
    request: &mut Reply,
    direction: Direction,
    random: &[u8; 16],
    secret: &[u8],
    list: &[Avp<'_>],
) -> Result<(), Unfit>
    requires short { reply_length request.old ≤ 4096 }
    ensures { let avps = list_view list.now in
        Pushes request.old request.new (is_ok result) (not (list_any (specs.is_bad direction) avps))
        (flat_map (specs.image direction random.now secret.now) avps) }
{
    for avp in list {
        push_image(request, direction, random, secret, avp)?;
    }
    Ok(())
}

/// Pushes the Acct-Status-Type of a record, and then what its AVPs give.
pub(crate) fn push_record(
    request: &mut Reply,
    status: u32,
    random: &[u8; 16],
    secret: &[u8],
    list: &[Avp<'_>],
) -> Result<(), Unfit>
    ensures { let avps = list_view list.now in
        Pushes request.old request.new (is_ok result)
        (not (list_any (specs.is_bad Accounting) avps))
        (attribute 40 (text32 status)
        ∷ flat_map (specs.image Accounting random.now secret.now) avps) }
{
    push_number(request, ACCT_STATUS_TYPE, status)?;
    push_images(request, Direction::Accounting, random, secret, list)
}
