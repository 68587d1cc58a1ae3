//! The AVPs of a list, one after the other.

ghost use Rattle.std.specs.Prelude.{◌≡◌};
ghost use Rattle.std.specs.Iterator.{YieldsFirstBy, item_count};
ghost use Rattle.diameter_avp.specs.Avps.{avp_items};
ghost use Rattle.diameter_avp.specs.View.{item_view};

use crate::avp::Avp;
use crate::fault::AvpFault;
use crate::reading::read_avp;
use std::marker::Model;

/// The AVPs of a list in order, and where one has a fault that fault and then nothing more.
/// Contracts see it as the items that are left.
#[derive(Drop)]
pub struct Avps<'a> {
    rest: &'a [u8],
    place: usize,
}

impl<'a> Model for Avps<'a> {
    ghost use Rattle.std.specs.Prelude.{◌+◌, ◌<◌, ◌^◌, List, Result, length};
    ghost use Rattle.diameter_avp.specs.declared.fault.AvpFault.{AvpFault};
    ghost use Rattle.diameter_avp.specs.Avps.{AvpParts, items_at};

    ghost Value = { List (Result AvpParts AvpFault) };

    ghost view = { λ a. items_at a.place a.rest.now };

    ghost invariant = { λ a. a.place + length a.rest.now < 2 ^ 64 };
}

impl<'a> Avps<'a> {
    #[tactic(auto, unfolding(crate::specs::Avps::avp_items))]
    pub(crate) fn new(octets: &'a [u8]) -> Avps<'a>
        ensures { result ≡ avp_items octets.now }
    {
        Avps {
            rest: octets,
            place: 0,
        }
    }
}

impl<'a> Iterator for Avps<'a> {
    type Item = Result<Avp<'a>, AvpFault>;

    ghost next_gives = { YieldsFirstBy item_view (λ s. s) };

    ghost remaining = { item_count (λ s. s) };

    fn next(&mut self) -> Option<Result<Avp<'a>, AvpFault>> {
        let octets = self.rest;
        if octets.is_empty() {
            return None;
        }
        match read_avp(octets, self.place) {
            Ok((avp, span)) => {
                self.rest = &octets[span..];
                self.place += span;
                Some(Ok(avp))
            }
            Err(fault) => {
                self.rest = &octets[octets.len()..];
                Some(Err(fault))
            }
        }
    }
}
