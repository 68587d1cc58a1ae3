//! Acct-Status-Types (RFC 2866, section 5.1).

ghost use Rattle.std.specs.Prelude.{◌≡◌};
ghost use Rattle.radius_packet.specs.Views.{attribute_view};
ghost use Rattle.accounting_map.specs.Statuses as statuses;
ghost use Rattle.accounting_map.specs.Verdict as specs;

use crate::codes::ACCT_STATUS_TYPE;
use crate::numbers::number_in;
use radius_packet::{Attribute, Packet};

pub(crate) const START: u32 = 1;

pub(crate) const STOP: u32 = 2;

pub(crate) const INTERIM_UPDATE: u32 = 3;

pub(crate) const ACCOUNTING_ON: u32 = 7;

pub(crate) const ACCOUNTING_OFF: u32 = 8;

/// The Acct-Status-Types that a pass has found.
#[derive(Clone, Copy)]
pub(crate) enum Statuses {
    Missing,
    Lone { number: u32 },
    Many,
}

impl Statuses {
    /// What is found with one attribute more.
    pub fn note(self, attribute: &Attribute<'_>) -> Statuses
        ensures { result ≡ statuses.statuses_with self (attribute_view attribute.now) }
    {
        if attribute.code != ACCT_STATUS_TYPE {
            return self;
        }
        match self {
            Statuses::Missing => Statuses::Lone {
                number: number_in(attribute.value),
            },
            Statuses::Lone { .. } | Statuses::Many => Statuses::Many,
        }
    }

    /// The number in the only one; 0 where there isn't one of four octets.
    pub fn status(self) -> u32
        ensures { result ≡ statuses.status_of self }
    {
        match self {
            Statuses::Lone { number } => number,
            Statuses::Missing | Statuses::Many => 0,
        }
    }
}

/// The number in the only Acct-Status-Type; 0 where there isn't one of four octets.
pub(crate) fn status(packet: &Packet<'_>) -> u32
    ensures { result ≡ specs.status packet.now.attributes }
{
    let mut found = Statuses::Missing;
    for attribute in packet.attributes() {
        found = found.note(&attribute);
    }
    found.status()
}
