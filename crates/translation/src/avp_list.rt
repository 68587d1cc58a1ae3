//! AVPs, read once into a list.

ghost use Rattle.std.specs.Prelude.{◌≡◌, find, count_by, option_map, IfOk};
ghost use Rattle.std.specs.Result.{result_ok};
ghost use Rattle.diameter_avp.specs.Avps.{read_avps};
ghost use Rattle.diameter_avp.specs.View.{avp_view};
ghost use Rattle.diameter_message.specs.Finding as finding;
ghost use Rattle.translation.specs.AvpList.{list_view};

use diameter_avp::{Avp, avps};
use diameter_message::{has_code, number_of};
use std::alloc::Global;
use wire_core::NoMemory;

/// For how many AVPs there is room at first: few answers have more.
const FIRST_ROOM: usize = 16;

/// The AVPs in order. None where they can't be read.
pub fn read<'a>(alloc: Global, octets: &'a [u8]) -> Result<Option<Vec<Avp<'a>>>, NoMemory>
    ensures { IfOk result (λ found. option_map (λ list. list_view list.items) found
        ≡ result_ok (read_avps octets.now)) }
{
    let mut list = Vec::with_capacity(alloc, FIRST_ROOM)?;
    for item in avps(octets) {
        let Ok(avp) = item else {
            return Ok(None);
        };
        list.push(avp)?;
    }
    Ok(Some(list))
}

/// The first AVP of this code.
pub fn first<'a>(list: &[Avp<'a>], code: u32) -> Option<Avp<'a>>
    ensures { option_map avp_view result ≡ find (finding.has_code code) (list_view list.now) }
{
    list.iter().find(|a| has_code(a, code)).copied()
}

/// How many AVPs of this code there are.
pub fn count(list: &[Avp<'_>], code: u32) -> usize
    ensures { result ≡ count_by (finding.has_code code) (list_view list.now) }
{
    list.iter().filter(|a| has_code(a, code)).count()
}

/// The number in the first AVP of this code that has four octets.
pub fn first_number(list: &[Avp<'_>], code: u32) -> Option<u32>
    ensures { result ≡ finding.first_number code (list_view list.now) }
{
    for avp in list {
        let number = number_of(avp, code);
        if number.is_some() {
            return number;
        }
    }
    None
}
