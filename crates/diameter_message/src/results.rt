//! What an answer's Result-Code says.

ghost use Rattle.std.specs.Prelude.{◌≡◌};
ghost use Rattle.diameter_avp.specs.Avps.{read_avps};
ghost use Rattle.diameter_message.specs.Results as specs;

use crate::avp_codes::RESULT_CODE;
use crate::finding::number_of;
use diameter_avp::avps;

/// Whether a Result-Code is one of success, 2000 to 2999 (RFC 6733, section 7.1).
pub fn is_success(code: u32) -> bool
    ensures { result ≡ specs.is_success code }
{
    (2000..3000).contains(&code)
}

/// The first Result-Code of four octets; 0 where there is none, or where the AVPs have a fault.
pub fn result_code(octets: &[u8]) -> u32
    ensures { result ≡ specs.result_in (read_avps octets.now) }
{
    let mut found = None;
    for item in avps(octets) {
        let Ok(avp) = item else {
            return 0;
        };
        found = found.or(number_of(&avp, RESULT_CODE));
    }
    found.unwrap_or(0)
}
